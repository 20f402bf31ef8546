//! Callers that get the value of a return, where it fits on their operands.

ghost use Rattle.std.specs.Prelude.{◌≡◌, ◌&&◌, ◌+◌, ◌<◌, ◌^◌, IfOk, length, nat_le};
ghost use Rattle.vx_cond.specs.Cond.{IsCond};
ghost use Rattle.vx_cond.specs.Slots.{slot_at, slots_at};
ghost use Rattle.vx_families.specs.Bounds.{IsBounded};
ghost use Rattle.vx_frame.specs.Frame.{scope_of};
ghost use Rattle.vx_group.specs.Group.{IsGroup, path_of};
ghost use Rattle.vx_group_states.specs.Sites.{Gives, GivesAt};
ghost use Rattle.vx_group_states.specs.Widths.{slots_size};
ghost use Rattle.vx_heap.specs.Changing.{IsValueHeld};
ghost use Rattle.vx_heap.specs.Heap.{HeapView, value_of};
ghost use Rattle.vx_java.specs.Machine.{Go, when};
ghost use Rattle.vx_java.specs.Returns.{bytes_of, instruction_size};
ghost use Rattle.vx_link.specs.Parts.{method_at};
ghost use Rattle.vx_opcode.specs.Decode.{instruction_at};
ghost use Rattle.vx_space.specs.Sets.{Extends, IsKnown, IsSet};
ghost use Rattle.vx_value.specs.Slot.{slot_cmp};
ghost use Rattle.vx_returns.specs.Handing.{ended_at, past_call, received, with_pushed};

use std::alloc::{AllocError, Global};
use vx_cond::Cond;
use vx_group::Group;
use vx_group_states::stack_size;
use vx_java::parts::code_of;
use vx_java::{place, room_of, size_in};
use vx_link::Program;
use vx_outcome::{Outcome, Outcomes};
use vx_ready::where_yes;
use vx_space::{Space, SpaceFault};
use vx_value::{End, MethodId, Slot};

/// Where a return stands in the code of a method.
#[derive(Clone, Copy)]
pub struct ReturnSite {
    pub method: MethodId,
    pub position: u32,
}

/// The length of the instruction at a place.
fn size_at(program: &Program, place: ReturnSite) -> u32
    requires { IsBounded program.now }
    ensures size { result ≡ instruction_size (instruction_at (bytes_of (method_at program.now place.method.0).code) place.position) }
    ensures within { place.position + result < 2 ^ 32 }
{
    match code_of(program, place.method) {
        Some(code) => size_in(code, place.position),
        None => 0,
    }
}

/// Moves the frame on top past the instruction where it stands.
pub(crate) fn moved_past<S: Space>(program: &Program, group: Group<S>) -> Group<S>
    requires bounded { IsBounded program.now }
    requires scope { scope_of group.top ≡ path_of group }
    ensures { result ≡ past_call program.now group }
{
    let (below, mut frame) = group.take_top();
    let place = ReturnSite {
        method: frame.method,
        position: frame.position,
    };
    frame.position += size_at(program, place);
    below.put_top(frame)
}

/// Runs whose value doesn't fit end at the return, which stands at this place. No runs come to no outcome.
fn misfits<S: Space>(
    alloc: Global,
    program: &Program,
    space: &S,
    group: Group<S>,
    at: ReturnSite,
) -> Result<Outcomes<S>, AllocError>
    requires { IsGroup (S.sets space.now) group }
    ensures { IfOk result (λ r. Gives program.now (λ _. ended_at program.now at) (S.sets space.now) (S.sets space.now) group r.items.items) }
{
    let mut outcomes = Outcomes::new(alloc);
    if space.is_never(group.path()) {
        return Ok(outcomes);
    }
    let place = place(alloc, program, at.method, at.position)?;
    outcomes.push(Outcome::Ended {
        condition: group.path(),
        end: End::Illegal(place),
    })?;
    Ok(outcomes)
}

/// Runs that go on as they stand. No runs come to no outcome.
fn going_part<S: Space>(
    alloc: Global,
    space: &S,
    group: Group<S>,
) -> Result<Outcomes<S>, AllocError>
    requires { IsGroup (S.sets space.now) group }
    ensures { IfOk result (λ r. (program : Program) → Gives program Go (S.sets space.now) (S.sets space.now) group r.items.items) }
{
    if space.is_never(group.path()) {
        return Ok(Outcomes::new(alloc));
    }
    Outcomes::go(alloc, group)
}

/// The group with a value more on its operands.
fn with_value<S: Space>(group: Group<S>, value: Cond<Slot, S>) -> Result<Group<S>, AllocError>
    requires scope { scope_of group.top ≡ path_of group }
    requires few { length group.top.stack.conds + 1 < 2 ^ 32 }
    ensures { IfOk result (λ r. r ≡ with_pushed group value) }
{
    let (below, mut frame) = group.take_top();
    frame.stack.push(value)?;
    Ok(below.put_top(frame))
}

/// The configurations of a group in which its operands fit in so many words.
fn where_within<S: Space>(
    alloc: Global,
    space: &mut S,
    group: &Group<S>,
    room: u16,
) -> Result<S::Id, SpaceFault>
    requires group { IsGroup (S.sets space.old) group.now }
    requires few { length group.now.top.stack.conds < 2 ^ 32 }
    ensures extends { Extends (S.sets space.old) (S.sets space.new) }
    ensures set { IfOk result (λ r. IsSet (S.sets space.new) r (λ c. (S.sets space.old).test (path_of group.now) c && nat_le (slots_size (slots_at (S.sets space.old) group.now.top.stack c)) room)) }
{
    let sizes = stack_size(alloc, space, &group.top_frame().stack)?;
    let room = u64::from(room);
    let is_within = |size: u64| -> bool
        ensures { result ≡ nat_le size room }
    { size <= room };
    let answers = sizes.map(space, is_within)?;
    Ok(where_yes(space, &answers))
}

/// The parts of a group with the value on its operands: where it fits the runs go on, and elsewhere they end.
fn fitting_parts<S: Space>(
    alloc: Global,
    program: &Program,
    space: &mut S,
    group: Group<S>,
    fits: S::Id,
    at: ReturnSite,
) -> Result<Outcomes<S>, SpaceFault>
    requires group { IsGroup (S.sets space.old) group }
    requires known { IsKnown (S.sets space.old) fits }
    ensures extends { Extends (S.sets space.old) (S.sets space.new) }
    ensures gives { IfOk result (λ r. (heap : HeapView S S.Id) → GivesAt program.now (λ _ c s. when ((S.sets space.old).test fits c) (Go s) (ended_at program.now at)) (S.sets space.old) (S.sets space.new) group r.items.items heap) }
{
    let (going, breaking) = group.split(space, fits)?;
    let ended = misfits(alloc, program, space, breaking, at)?;
    let mut outcomes = going_part(alloc, space, going)?;
    outcomes.append(ended)?;
    Ok(outcomes)
}

/// The value of a return is put on the operands of a caller, where it fits; elsewhere the runs end at the return, which stands at this
/// place (JVMS 2.6.4, 4.7.3). An operand takes a word at least, so where there are as many operands as the caller's greatest stack has
/// words, no value fits any more.
pub(crate) fn receive<S: Space>(
    alloc: Global,
    program: &Program,
    space: &mut S,
    group: Group<S>,
    value: Cond<Slot, S>,
    at: ReturnSite,
) -> Result<Outcomes<S>, SpaceFault>
    requires group { IsGroup (S.sets space.old) group }
    requires value { IsCond slot_cmp (S.sets space.old) value }
    requires scope { value.scope ≡ path_of group }
    ensures extends { Extends (S.sets space.old) (S.sets space.new) }
    ensures gives { IfOk result (λ r. (heap : HeapView S S.Id) → IsValueHeld (S.sets space.old) heap value → GivesAt program.now (λ heap c s. received program.now at (value_of (S.sets space.old) heap c (slot_at (S.sets space.old) value c)) s) (S.sets space.old) (S.sets space.new) group r.items.items heap) }
{
    let top = group.top_frame();
    let room = room_of(program, top.method);
    if top.stack.len() >= usize::from(room) {
        let ended = misfits(alloc, program, space, group, at)?;
        return Ok(ended);
    }
    let group = with_value(group, value)?;
    let fits = where_within(alloc, space, &group, room)?;
    fitting_parts(alloc, program, space, group, fits, at)
}
