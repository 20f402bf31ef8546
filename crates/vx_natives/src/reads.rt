//! Calls of native methods with what is read for them behind their values.

ghost use Rattle.std.specs.Prelude.{◌≡◌, Bool, IfOk, List, true};
ghost use Rattle.vx_cond.specs.Cond.{IsCond};
ghost use Rattle.vx_families.specs.Texts.{HasMoreTexts};
ghost use Rattle.vx_group_states.specs.Answering.{answer_at, slot_by};
ghost use Rattle.vx_group_states.specs.Answers.{answer_cmp};
ghost use Rattle.vx_heap.specs.Heap.{IsHeap};
ghost use Rattle.vx_natives.specs.CallOrder.{call_cmp};
ghost use Rattle.vx_natives.specs.Calls.{call_at, with_value};
ghost use Rattle.vx_natives.specs.Cells.{AreCallsHeld};
ghost use Rattle.vx_natives.specs.Readings.{HasReading, HaveReadings, IsBehind, readings_of};
ghost use Rattle.vx_space.specs.Sets.{Extends};

use crate::behaviour::Behaviour;
use crate::call::{Call, with_value};
use crate::cells::cells_given;
use crate::chars::chars_read;
use crate::readings::{Reading, first_reading, second_reading};
use std::alloc::Global;
use vx_cond::Cond;
use vx_group_states::Answer;
use vx_heap::Heap;
use vx_space::{Space, SpaceFault};
use vx_value::Slot;

/// The values of a call with what is given behind them.
fn with_given(call: Call, given: Answer) -> Call
    ensures { result ≡ with_value call (slot_by given) }
{
    match given {
        Answer::Push(slot) | Answer::Give(slot) | Answer::Throw(slot) => with_value(call, slot),
        _ => with_value(call, Slot::Top),
    }
}

/// What is read of each call, as answers that give it.
fn given_by<S: Space>(
    alloc: Global,
    space: &mut S,
    heap: &mut Heap<S>,
    calls: &Cond<Call, S>,
    reading: Reading,
) -> Result<Cond<Answer, S>, SpaceFault>
    requires heap { IsHeap (S.sets space.old) heap.old }
    requires calls { IsCond call_cmp (S.sets space.old) calls.now }
    requires held { AreCallsHeld (S.sets space.old) heap.old calls.now }
    ensures extends { Extends (S.sets space.old) (S.sets space.new) }
    ensures more { IfOk result (λ _. HasMoreTexts heap.old heap.new) }
    ensures cond { IfOk result (IsCond answer_cmp (S.sets space.new)) }
    ensures scope { IfOk result (λ r. r.scope ≡ calls.now.scope) }
    ensures at { IfOk result (λ r. (c : List Bool) → (S.sets space.old).test calls.now.scope c ≡ true → HasReading (S.sets space.new) heap.new c reading (call_at (S.sets space.old) calls.now c) (slot_by (answer_at (S.sets space.new) r c))) }
{
    match reading {
        Reading::Cell(is_second, cell) => {
            let cells = cells_given(alloc, space, heap, calls, is_second, cell)?;
            Ok(cells)
        }
        Reading::Chars(is_second) => {
            let texts = chars_read(alloc, space, heap, calls, is_second)?;
            Ok(texts)
        }
    }
}

/// Calls with what is read of other calls behind their values.
fn with_reading<S: Space>(
    alloc: Global,
    space: &mut S,
    heap: &mut Heap<S>,
    source: &Cond<Call, S>,
    calls: &Cond<Call, S>,
    reading: Reading,
) -> Result<Cond<Call, S>, SpaceFault>
    requires heap { IsHeap (S.sets space.old) heap.old }
    requires source { IsCond call_cmp (S.sets space.old) source.now }
    requires held { AreCallsHeld (S.sets space.old) heap.old source.now }
    requires calls { IsCond call_cmp (S.sets space.old) calls.now }
    requires scope { calls.now.scope ≡ source.now.scope }
    ensures extends { Extends (S.sets space.old) (S.sets space.new) }
    ensures more { IfOk result (λ _. HasMoreTexts heap.old heap.new) }
    ensures cond { IfOk result (IsCond call_cmp (S.sets space.new)) }
    ensures scope { IfOk result (λ r. r.scope ≡ source.now.scope) }
    ensures at { IfOk result (λ r. (c : List Bool) → (S.sets space.old).test source.now.scope c ≡ true → IsBehind (S.sets space.new) heap.new c reading (call_at (S.sets space.old) source.now c) (call_at (S.sets space.old) calls.now c) (call_at (S.sets space.new) r c)) }
{
    let given = given_by(alloc, space, heap, source, reading)?;
    let made = calls.zip(space, &given, with_given)?;
    Ok(made)
}

/// Calls of a method that does this, with what is read for it behind their values. The heap may have more texts afterwards, and is else
/// the same; after want of memory it is given up.
pub fn read_calls<S: Space>(
    alloc: Global,
    space: &mut S,
    heap: &mut Heap<S>,
    behaviour: Behaviour,
    calls: Cond<Call, S>,
) -> Result<Cond<Call, S>, SpaceFault>
    requires heap { IsHeap (S.sets space.old) heap.old }
    requires calls { IsCond call_cmp (S.sets space.old) calls }
    requires held { AreCallsHeld (S.sets space.old) heap.old calls }
    ensures extends { Extends (S.sets space.old) (S.sets space.new) }
    ensures more { IfOk result (λ _. HasMoreTexts heap.old heap.new) }
    ensures cond { IfOk result (IsCond call_cmp (S.sets space.new)) }
    ensures scope { IfOk result (λ r. r.scope ≡ calls.scope) }
    ensures at { IfOk result (λ r. (c : List Bool) → (S.sets space.old).test calls.scope c ≡ true → HaveReadings (S.sets space.new) heap.new c (readings_of behaviour) (call_at (S.sets space.old) calls c) (call_at (S.sets space.old) calls c) (call_at (S.sets space.new) r c)) }
{
    let Some(first) = first_reading(behaviour) else {
        return Ok(calls);
    };
    let one = with_reading(alloc, space, heap, &calls, &calls, first)?;
    let Some(second) = second_reading(behaviour) else {
        return Ok(one);
    };
    let both = with_reading(alloc, space, heap, &calls, &one, second)?;
    Ok(both)
}
