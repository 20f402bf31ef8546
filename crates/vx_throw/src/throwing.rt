//! Objects that are thrown down the frames of a group (JVMS 2.10).

ghost use Rattle.std.specs.Prelude.{◌≡◌, ◌<◌, ◌++◌, IfOk, List, true};
ghost use Rattle.std.specs.List.{list_all};
ghost use Rattle.vx_frames.specs.Giving.{AttemptsAt};
ghost use Rattle.vx_frames.specs.Uncovering.{IsUncovered};
ghost use Rattle.vx_group.specs.Group.{IsGroupIn, depth_of};
ghost use Rattle.vx_outcome.specs.declared.outcome.Outcome.{Outcome as OutcomeOf};
ghost use Rattle.vx_space.specs.Sets.{Extends};
ghost use Rattle.vx_standing.specs.Attempted.{is_placed};
ghost use Rattle.vx_throw.specs.Flights.{IsFlight, IsHandled, IsPassed, NoneTakes, thrown_from};

use crate::failing::leave;
use crate::handling::{Flight, handle};
use crate::uncaught::end_all;
use std::alloc::Global;
use vx_cond::Cond;
use vx_frames::uncovered;
use vx_group::{Callers, Group};
use vx_heap::Heap;
use vx_link::Program;
use vx_outcome::Outcomes;
use vx_space::{Space, SpaceFault};
use vx_value::Slot;

/// The objects are thrown in the frame on top: those that a handler takes go on there, in `outcomes`, and the others are left.
fn handled<S: Space>(
    alloc: Global,
    program: &Program,
    space: &mut S,
    heap: &Heap<S>,
    flight: Flight<S>,
    outcomes: &mut Outcomes<S>,
) -> Result<Flight<S>, SpaceFault>
    requires { (tree : _) × IsFlight program.now (S.sets space.old) heap.now tree flight }
    ensures extends { Extends (S.sets space.old) (S.sets space.new) }
    ensures handled { IfOk result (λ r. (landed : List (OutcomeOf S S.Id)) × (outcomes.new.items.items ≡ outcomes.old.items.items ++ landed) × IsHandled program.now (S.sets space.old) (S.sets space.new) heap.now flight r landed) }
{
    let (left, landed) = handle(alloc, program, space, heap, flight)?;
    outcomes.append(landed)?;
    Ok(left)
}

/// The frame on top is taken off, and the objects are thrown in its caller.
fn thrown_below<S: Space>(
    space: &mut S,
    callers: &mut Callers<S>,
    flight: Flight<S>,
) -> Result<Flight<S>, SpaceFault>
    requires group { IsGroupIn (S.sets space.old) callers.old flight.group }
    requires called { 1 < depth_of flight.group }
    ensures extends { Extends (S.sets space.old) (S.sets space.new) }
    ensures callers { callers.new ≡ callers.old }
    ensures below { IfOk result (λ r. (r.objects ≡ flight.objects) × IsUncovered (S.sets space.old) (S.sets space.new) callers.new flight.group flight.group.top r.group) }
{
    let Flight { group, objects } = flight;
    let (group, _frame) = uncovered(space, callers, group)?;
    Ok(Flight { group, objects })
}

/// The objects leave the frame on top, which doesn't take them, and are thrown on in its caller.
fn passed<S: Space>(
    alloc: Global,
    program: &Program,
    space: &mut S,
    heap: &mut Heap<S>,
    callers: &mut Callers<S>,
    flight: Flight<S>,
) -> Result<Flight<S>, SpaceFault>
    requires flight { IsFlight program.now (S.sets space.old) heap.old callers.old flight }
    requires called { 1 < depth_of flight.group }
    ensures extends { Extends (S.sets space.old) (S.sets space.new) }
    ensures callers { callers.new ≡ callers.old }
    ensures passed { IfOk result (IsPassed program.now (S.sets space.old) (S.sets space.new) heap.old heap.new callers.old flight) }
{
    let left = leave(alloc, program, space, heap, flight)?;
    thrown_below(space, callers, left)
}

/// The objects leave the last frame, which doesn't take them, and the runs end by their classes. No runs come to no outcome.
fn ended<S: Space>(
    alloc: Global,
    program: &Program,
    space: &mut S,
    heap: &mut Heap<S>,
    flight: Flight<S>,
) -> Result<Outcomes<S>, SpaceFault>
    requires { (tree : _) × IsFlight program.now (S.sets space.old) heap.old tree flight }
    ensures extends { Extends (S.sets space.old) (S.sets space.new) }
    ensures ended { IfOk result (λ r. (tree : _) → IsFlight program.now (S.sets space.old) heap.old tree flight → NoneTakes program.now (S.sets space.old) heap.old tree flight → depth_of flight.group ≡ 1 → AttemptsAt program.now (thrown_from program.now (S.sets space.old) flight.objects heap.old) (S.sets space.old) (S.sets space.new) heap.old heap.new tree tree flight.group r.items.items) }
    ensures placed { IfOk result (λ r. list_all is_placed r.items.items ≡ true) }
{
    if space.is_never(flight.group.path()) {
        return Ok(Outcomes::new(alloc));
    }
    let left = leave(alloc, program, space, heap, flight)?;
    end_all(alloc, program, space, heap, &left)
}

/// Throws the objects that a group throws (JVMS 2.10, 5.5): in the frame on top the first catch row that covers the position and takes the
/// class of the object has its handler, where the object stands alone on the operands and the locals stay; what no row takes is thrown on
/// in the caller, and ends the run where there is none. The class of an initialisation that it leaves has failed, and an object that is no
/// Error is the cause of a new exception there. The work is linear in the frames. After a refusal heap, group and callers are given up.
pub fn throw<S: Space>(
    alloc: Global,
    program: &Program,
    space: &mut S,
    heap: &mut Heap<S>,
    callers: &mut Callers<S>,
    group: Group<S>,
    thrown: Cond<Slot, S>,
) -> Result<Outcomes<S>, SpaceFault>
    requires { IsFlight program.now (S.sets space.old) heap.old callers.old (record { group = group; objects = thrown }) }
    ensures extends { Extends (S.sets space.old) (S.sets space.new) }
    ensures callers { callers.new ≡ callers.old }
    ensures thrown { IfOk result (λ r. AttemptsAt program.now (λ c s. thrown_from program.now (S.sets space.old) thrown heap.old c s) (S.sets space.old) (S.sets space.new) heap.old heap.new callers.old callers.new group r.items.items) }
    ensures placed { IfOk result (λ r. list_all is_placed r.items.items ≡ true) }
{
    let mut outcomes = Outcomes::new(alloc);
    let depth = group.depth();
    let mut flight = Flight {
        group,
        objects: thrown,
    };
    for _frame in 1..depth {
        let left = handled(alloc, program, space, heap, flight, &mut outcomes)?;
        if space.is_never(left.group.path()) {
            return Ok(outcomes);
        }
        flight = passed(alloc, program, space, heap, callers, left)?;
    }
    let left = handled(alloc, program, space, heap, flight, &mut outcomes)?;
    let ended = ended(alloc, program, space, heap, left)?;
    outcomes.append(ended)?;
    Ok(outcomes)
}
