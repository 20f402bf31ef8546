//! Cells of the objects that calls of native methods name.

ghost use Rattle.std.specs.Prelude.{◌≡◌, Bool, IfOk, List, true};
ghost use Rattle.vx_cond.specs.Cond.{IsCond};
ghost use Rattle.vx_group_states.specs.Answering.{answer_at, slot_by};
ghost use Rattle.vx_group_states.specs.Answers.{answer_cmp};
ghost use Rattle.vx_heap.specs.Heap.{IsHeap};
ghost use Rattle.vx_natives.specs.CallOrder.{call_cmp};
ghost use Rattle.vx_natives.specs.Calls.{call_at, value_of_call};
ghost use Rattle.vx_natives.specs.Cells.{AreCallsHeld, place_of};
ghost use Rattle.vx_natives.specs.Readings.{HasReading};
ghost use Rattle.vx_space.specs.Sets.{Extends};

use crate::call::{Call, value_of_call};
use crate::readings::Reading;
use std::alloc::Global;
use vx_cells::{Place, given_at};
use vx_cond::Cond;
use vx_group_states::Answer;
use vx_heap::Heap;
use vx_space::{Space, SpaceFault};
use vx_value::Slot;

/// The place of a cell of the object that a slot names.
fn place_of(slot: Slot, cell: u32) -> Place
    ensures { result ≡ place_of slot cell }
{
    match slot {
        Slot::Ref(reference) => Place::At(reference, cell),
        _ => Place::Null,
    }
}

/// The values of a cell of the objects that the first value of each call names, or the second, as answers that give them. What isn't
/// there isn't given.
pub(crate) fn cells_given<S: Space>(
    alloc: Global,
    space: &mut S,
    heap: &Heap<S>,
    calls: &Cond<Call, S>,
    is_second: bool,
    cell: u32,
) -> Result<Cond<Answer, S>, SpaceFault>
    requires heap { IsHeap (S.sets space.old) heap.now }
    requires calls { IsCond call_cmp (S.sets space.old) calls.now }
    requires held { AreCallsHeld (S.sets space.old) heap.now calls.now }
    ensures extends { Extends (S.sets space.old) (S.sets space.new) }
    ensures cond { IfOk result (IsCond answer_cmp (S.sets space.new)) }
    ensures scope { IfOk result (λ r. r.scope ≡ calls.now.scope) }
    ensures at { IfOk result (λ r. (c : List Bool) → (S.sets space.old).test calls.now.scope c ≡ true → HasReading (S.sets space.new) heap.now c (Reading.Cell is_second cell) (call_at (S.sets space.old) calls.now c) (slot_by (answer_at (S.sets space.new) r c))) }
{
    let placed = |call: Call| -> Place
        ensures { result ≡ place_of (value_of_call is_second call) cell }
    { place_of(value_of_call(call, is_second), cell) };
    let places = calls.map(space, placed)?;
    let none = Cond::one(alloc, space, Answer::Pass, places.scope())?;
    let given = given_at(space, heap, &places, none)?;
    Ok(given)
}
