//! Native methods carried out for a group that stands at a call.

ghost use Rattle.std.specs.Prelude.{◌≡◌, ◌⊎◌, ◌<◌, ◌≤◌, ◌^◌, Bool, IfOk, List, false, true};
ghost use Rattle.vx_cond.specs.Cond.{IsCond, IsInside};
ghost use Rattle.vx_families.specs.Attempts.{AttemptsBy, IsGiven};
ghost use Rattle.vx_heap.specs.Heap.{IsHeap, IsHeapFor};
ghost use Rattle.vx_java.specs.Ids.{HasClassNumbers};
ghost use Rattle.vx_java.specs.Natives.{native as native_of};
ghost use Rattle.vx_java.specs.declared.operation.Operation.{Operation};
ghost use Rattle.vx_natives.specs.CallOrder.{call_cmp};
ghost use Rattle.vx_natives.specs.Calls.{call_at};
ghost use Rattle.vx_natives.specs.Cells.{AreCallsHeld};
ghost use Rattle.vx_natives.specs.Doing.{AreDone};
ghost use Rattle.vx_natives.specs.Forms.{HasBehaviour};
ghost use Rattle.vx_natives.specs.Readings.{IsGivenOr, said_of};
ghost use Rattle.vx_space.specs.Sets.{Extends};

use crate::doing::all_done;
use std::alloc::Global;
use vx_cond::Cond;
use vx_group::Group;
use vx_group_states::{Answer, Site, carry_out, illegal};
use vx_heap::Heap;
use vx_java::parts::native_number;
use vx_link::Program;
use vx_natives::{Behaviour, Call, behaviour_of, native_call, read_calls};
use vx_outcome::Outcomes;
use vx_space::{Space, SpaceFault};
use vx_value::MethodId;

/// What the calls of a method that does this are answered. The heap may change in their scope; after want of memory it is given up.
fn answered<S: Space>(
    alloc: Global,
    program: &Program,
    space: &mut S,
    heap: &mut Heap<S>,
    behaviour: Behaviour,
    calls: Cond<Call, S>,
) -> Result<Cond<Answer, S>, SpaceFault>
    requires classes { HasClassNumbers program.now }
    requires heap { IsHeap (S.sets space.old) heap.old }
    requires for_program { IsHeapFor program.now heap.old }
    requires calls { IsCond call_cmp (S.sets space.old) calls }
    requires runs { IsInside (S.sets space.old) calls.scope heap.old.allowed }
    requires held { AreCallsHeld (S.sets space.old) heap.old calls }
    requires given { (c : List Bool) → (S.sets space.old).test calls.scope c ≡ true → IsGivenOr behaviour (call_at (S.sets space.old) calls c) }
    ensures extends { Extends (S.sets space.old) (S.sets space.new) }
    ensures done { IfOk result (AreDone Call.Illegal program.now (S.sets space.old) (S.sets space.new) heap.old heap.new (said_of (S.sets space.old) heap.old behaviour) calls) }
{
    let read = read_calls(alloc, space, heap, behaviour, calls)?;
    all_done(alloc, program, space, heap, behaviour, &read)
}

/// Whether a call that takes so many operands off breaks a rule at each configuration: there are fewer, or it takes none, and they leave no
/// room for the value that it gives then.
fn breaks_rules(depth: usize, taken: usize, words: u16) -> bool
    ensures broken { result ≡ true → (depth < taken) ⊎ ((taken ≡ 0) × (words < depth)) }
    ensures enough { result ≡ false → taken ≤ depth }
    ensures room { result ≡ false → taken ≡ 0 → depth < 2 ^ 16 }
{
    if taken == 0 {
        depth > words as usize
    } else {
        depth < taken
    }
}

/// Carries out a method that does this, for a group that stands at the call. The only refusal is want of memory, after which heap
/// and group are given up.
fn attempt<S: Space>(
    alloc: Global,
    site: &Site,
    space: &mut S,
    heap: &mut Heap<S>,
    group: Group<S>,
    method: MethodId,
    behaviour: Behaviour,
) -> Result<Outcomes<S>, SpaceFault>
    requires given { (operation : Operation) × IsGiven site.now operation (S.sets space.old) heap.old group }
    requires does { HasBehaviour site.now.program.now method.0 behaviour }
    ensures extends { Extends (S.sets space.old) (S.sets space.new) }
    ensures ok { IfOk result (λ r. AttemptsBy site.now (λ s. native_of site.now.program.now s method.0) (S.sets space.old) (S.sets space.new) heap.old heap.new group r.items.items) }
{
    let native = native_call(alloc, site, space, heap, &group, method)?;
    let depth = group.top_frame().stack.len();
    if breaks_rules(depth, native.taken, site.code.max_stack) {
        return illegal(alloc, site.program, &group);
    }
    let answers = answered(alloc, site.program, space, heap, behaviour, native.calls)?;
    carry_out(alloc, site, space, group, native.taken, &answers)
}

/// Carries out a native method for a group that stands at the call. A method of no number breaks a rule. The only refusal is want of
/// memory, after which heap and group are given up.
pub fn native<S: Space>(
    alloc: Global,
    site: &Site,
    space: &mut S,
    heap: &mut Heap<S>,
    group: Group<S>,
    method: MethodId,
) -> Result<Outcomes<S>, SpaceFault>
    requires given { (operation : Operation) × IsGiven site.now operation (S.sets space.old) heap.old group }
    ensures extends { Extends (S.sets space.old) (S.sets space.new) }
    ensures ok { IfOk result (λ r. AttemptsBy site.now (λ s. native_of site.now.program.now s method.0) (S.sets space.old) (S.sets space.new) heap.old heap.new group r.items.items) }
{
    let behaviour = behaviour_of(native_number(site.program, method));
    match behaviour {
        Behaviour::Missing => illegal(alloc, site.program, &group),
        _ => attempt(alloc, site, space, heap, group, method, behaviour),
    }
}
