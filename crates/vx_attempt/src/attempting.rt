//! One attempt of a group: the instruction where it stands, by its family, what a native method makes of it, and what is thrown.

ghost use Rattle.std.specs.Prelude.{◌≡◌, IfOk, Some, true};
ghost use Rattle.vx_space.specs.Sets.{Extends};
ghost use Rattle.vx_java.specs.Machine.{State, illegal_in};
ghost use Rattle.vx_java.specs.Row.{row};
ghost use Rattle.vx_link.specs.Parts.{method_at};
ghost use Rattle.vx_families.specs.Attempts.{IsAttemptIn, IsGiven};
ghost use Rattle.vx_group_states.specs.Stands.{StandsIn};
ghost use Rattle.vx_standing.specs.Attempted.{IsAttempted, MayAttempt};
ghost use Rattle.vx_attempt.specs.Families.{is_of};

use crate::family::{Family, family_of};
use crate::natives::{carried_out, only};
use crate::throwing::all_thrown;
use std::alloc::Global;
use vx_class::Code;
use vx_group::{Callers, Group};
use vx_group_states::Site;
use vx_heap::Heap;
use vx_java::decoding::operation;
use vx_java::parts::code_of;
use vx_java::{Operation, place};
use vx_link::Program;
use vx_opcode::decode;
use vx_outcome::{Outcome, Outcomes};
use vx_space::{Space, SpaceFault};
use vx_value::End;

/// The attempt of an instruction by its family. Calls and returns alone push a frame or take one off, so they alone are lent the tree.
fn by_family<S: Space>(
    alloc: Global,
    site: &Site,
    space: &mut S,
    heap: &mut Heap<S>,
    callers: &mut Callers<S>,
    family: Family,
    operation: Operation,
    group: Group<S>,
) -> Result<Outcomes<S>, SpaceFault>
    requires given { IsGiven site.now operation (S.sets space.old) heap.old group }
    requires stands { StandsIn site.now.program.now (S.sets space.old) heap.old callers.old group }
    requires family { is_of family operation ≡ true }
    ensures extends { Extends (S.sets space.old) (S.sets space.new) }
    ensures ok { IfOk result (λ r. IsAttemptIn site.now operation (S.sets space.old) (S.sets space.new) heap.old heap.new callers.old callers.new group r.items.items) }
{
    match family {
        Family::Numbers => vx_arith::attempt(alloc, site, space, heap, operation, group),
        Family::Locals => vx_locals::attempt(alloc, site, space, heap, operation, group),
        Family::Forms => vx_stack::attempt(alloc, site, space, heap, operation, group),
        Family::Statics => vx_fields::attempt(alloc, site, space, heap, operation, group),
        Family::Throws => vx_throw::attempt(alloc, site, space, heap, group),
        Family::Returns => {
            vx_returns::attempt(alloc, site, space, heap, callers, operation, group)
        }
        Family::Objects => vx_objects::attempt(alloc, site, space, heap, operation, group),
        Family::Arrays => vx_arrays::attempt(alloc, site, space, heap, operation, group),
        Family::Calls => vx_invoke::attempt(alloc, site, space, heap, callers, operation, group),
    }
}

/// The attempt of an instruction where it stands: its row, what a native method or a beginning makes of that, and what an
/// exception comes to.
fn attempt_at<S: Space>(
    alloc: Global,
    site: &Site,
    space: &mut S,
    heap: &mut Heap<S>,
    callers: &mut Callers<S>,
    family: Family,
    operation: Operation,
    group: Group<S>,
) -> Result<Outcomes<S>, SpaceFault>
    requires may { MayAttempt site.now.program.now (S.sets space.old) heap.old callers.old group }
    requires given { IsGiven site.now operation (S.sets space.old) heap.old group }
    requires family { is_of family operation ≡ true }
    ensures extends { Extends (S.sets space.old) (S.sets space.new) }
    ensures ok { IfOk result (λ r. IsAttempted site.now.program.now (S.sets space.old) (S.sets space.new) heap.old heap.new callers.old callers.new group r.items.items) }
{
    let outcomes = by_family(alloc, site, space, heap, callers, family, operation, group)?;
    let carried = carried_out(alloc, site, space, heap, callers, outcomes)?;
    let made = all_thrown(alloc, site.program, space, heap, callers, carried)?;
    Ok(made)
}

/// The runs of a group at whose place no instruction stands: all end.
fn end_there<S: Space>(
    alloc: Global,
    program: &Program,
    space: &S,
    heap: &Heap<S>,
    callers: &Callers<S>,
    group: &Group<S>,
) -> Result<Outcomes<S>, SpaceFault>
    requires may { MayAttempt program.now (S.sets space.now) heap.now callers.now group.now }
    requires nothing { (s : State) → s.top.method ≡ group.now.top.method.0 → s.top.position ≡ group.now.top.position → row program.now s ≡ illegal_in program.now s }
    ensures { IfOk result (λ r. IsAttempted program.now (S.sets space.now) (S.sets space.now) heap.now heap.now callers.now callers.now group.now r.items.items) }
{
    let top = group.top_frame();
    let place = place(alloc, program, top.method, top.position)?;
    let ended = only(
        alloc,
        Outcome::Ended {
            condition: group.path(),
            end: End::Illegal(place),
        },
    )?;
    Ok(ended)
}

/// The attempt in the code of the group's method. Behind the last instruction the run ends (JVMS 4.9.2).
fn attempt_in<S: Space>(
    alloc: Global,
    program: &Program,
    space: &mut S,
    heap: &mut Heap<S>,
    callers: &mut Callers<S>,
    code: &Code,
    group: Group<S>,
) -> Result<Outcomes<S>, SpaceFault>
    requires may { MayAttempt program.now (S.sets space.old) heap.old callers.old group }
    requires code { (method_at program.now group.top.method.0).code ≡ Some code.now }
    ensures extends { Extends (S.sets space.old) (S.sets space.new) }
    ensures ok { IfOk result (λ r. IsAttempted program.now (S.sets space.old) (S.sets space.new) heap.old heap.new callers.old callers.new group r.items.items) }
{
    let top = group.top_frame();
    match decode(code.bytes.as_slice(), top.position) {
        Ok(instruction) => {
            let operation = operation(&instruction);
            let family = family_of(operation);
            let site = Site {
                program,
                code,
                size: instruction.length,
            };
            attempt_at(alloc, &site, space, heap, callers, family, operation, group)
        }
        Err(_fault) => end_there(alloc, program, space, heap, callers, &group),
    }
}

/// Makes one attempt of each run of a group (JVMS 2.11, 6.5): the instruction where it stands, a native method where one is
/// called, and the throwing of what is raised. Each outcome goes on, writes, or has ended, in the later heap and tree.
/// The only refusal is want of memory, after which heap, tree and group are given up.
pub fn attempt<S: Space>(
    alloc: Global,
    program: &Program,
    space: &mut S,
    heap: &mut Heap<S>,
    callers: &mut Callers<S>,
    group: Group<S>,
) -> Result<Outcomes<S>, SpaceFault>
    requires { MayAttempt program.now (S.sets space.old) heap.old callers.old group }
    ensures extends { Extends (S.sets space.old) (S.sets space.new) }
    ensures ok { IfOk result (λ r. IsAttempted program.now (S.sets space.old) (S.sets space.new) heap.old heap.new callers.old callers.new group r.items.items) }
{
    match code_of(program, group.top_frame().method) {
        Some(code) => attempt_in(alloc, program, space, heap, callers, code, group),
        None => end_there(alloc, program, space, heap, callers, &group),
    }
}
