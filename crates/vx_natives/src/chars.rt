//! The texts of arrays of chars that calls of native methods name.

ghost use Rattle.std.specs.Prelude.{◌≡◌, ◌+◌, ◌<◌, Bool, IfOk, List, false, length, true};
ghost use Rattle.vx_cond.specs.Cond.{IsCond, IsInside};
ghost use Rattle.vx_families.specs.Texts.{HasMoreTexts};
ghost use Rattle.vx_group_states.specs.Answering.{answer_at, slot_by};
ghost use Rattle.vx_group_states.specs.Answers.{answer_cmp};
ghost use Rattle.vx_group_states.specs.Sites.{IsSomewhere};
ghost use Rattle.vx_heap.specs.Heap.{IsHeap, is_held, object_in};
ghost use Rattle.vx_natives.specs.CallOrder.{call_cmp};
ghost use Rattle.vx_natives.specs.Calls.{call_at, value_of_call};
ghost use Rattle.vx_natives.specs.Cells.{AreCallsHeld};
ghost use Rattle.vx_natives.specs.Chars.{IsAppended, IsAppendedOver, IsTextGiven, is_text_known, unit_in};
ghost use Rattle.vx_natives.specs.Doing.{AreTold};
ghost use Rattle.vx_natives.specs.Readings.{IsCharsRead, IsReadOver, chars_at};
ghost use Rattle.vx_space.specs.Sets.{Extends, IsKnown};

use crate::call::{Call, value_of_call};
use crate::readings::Reading;
use std::alloc::{AllocError, Global};
use vx_cond::Cond;
use vx_group_states::Answer;
use vx_heap::Heap;
use vx_space::{Space, SpaceFault};
use vx_value::Slot;

/// The unit of an element.
fn unit_in(element: Slot) -> u16
    ensures { result ≡ unit_in element }
{
    match element {
        Slot::Int(n) => (n.cast_unsigned() % 65_536) as u16,
        _ => 0,
    }
}

/// A text so far and the next element, as the values of a call.
fn with_next(text: Answer, element: Slot) -> Call
    ensures { result ≡ Call.Two (slot_by text) element }
{
    match text {
        Answer::Push(slot) | Answer::Give(slot) | Answer::Throw(slot) => Call::Two(slot, element),
        _ => Call::Two(Slot::Top, element),
    }
}

/// A text with the unit of an element behind it, which is in the heap then; of another slot no text is given.
fn appended_to<S: Space>(
    heap: &mut Heap<S>,
    text: Slot,
    element: Slot,
) -> Result<Answer, AllocError>
    requires { is_text_known heap.old.texts text ≡ true }
    ensures ok { IfOk result (IsAppended heap.old.texts heap.new.texts (Call.Two text element)) }
    ensures more { IfOk result (λ _. HasMoreTexts heap.old heap.new) }
{
    match text {
        Slot::Text(number) => {
            let appended = heap.append_text(number, &[unit_in(element)])?;
            Ok(Answer::Give(Slot::Text(appended)))
        }
        _ => Ok(Answer::Pass),
    }
}

/// The text of a pair with the unit of its element behind it, which is in the heap then.
fn appended<S: Space>(heap: &mut Heap<S>, pair: Call) -> Result<Answer, AllocError>
    requires { is_text_known heap.old.texts (value_of_call false pair) ≡ true }
    ensures ok { IfOk result (IsAppended heap.old.texts heap.new.texts pair) }
    ensures more { IfOk result (λ _. HasMoreTexts heap.old heap.new) }
{
    match pair {
        Call::Two(text, element) => appended_to(heap, text, element),
        _ => Ok(Answer::Pass),
    }
}

/// The text of each pair with the unit of its element behind it. The heap has more texts afterwards, and is else the same; after want
/// of memory it is given up.
fn all_appended<S: Space>(
    alloc: Global,
    space: &mut S,
    heap: &mut Heap<S>,
    pairs: &Cond<Call, S>,
) -> Result<Cond<Answer, S>, SpaceFault>
    requires heap { IsHeap (S.sets space.old) heap.old }
    requires pairs { IsCond call_cmp (S.sets space.old) pairs.now }
    requires known { (c : List Bool) → (S.sets space.old).test pairs.now.scope c ≡ true → is_text_known heap.old.texts (value_of_call false (call_at (S.sets space.old) pairs.now c)) ≡ true }
    ensures extends { Extends (S.sets space.old) (S.sets space.new) }
    ensures more { IfOk result (λ _. HasMoreTexts heap.old heap.new) }
    ensures ok { IfOk result (AreTold Call.Illegal (IsAppendedOver heap.old.texts) (S.sets space.old) (S.sets space.new) heap.old heap.new pairs.now) }
{
    let mut answers = Cond::one(alloc, space, Answer::Illegal, space.never())?;
    let leaves = pairs.leaves();
    for leaf in leaves {
        let answer = appended(heap, leaf.value)?;
        let part = Cond::one(alloc, space, answer, leaf.condition)?;
        answers = answers.join(space, &part)?;
    }
    Ok(answers)
}

/// The texts of the cells of an array up to one, with the unit of that one behind them.
fn with_element<S: Space>(
    alloc: Global,
    space: &mut S,
    heap: &mut Heap<S>,
    texts: &Cond<Answer, S>,
    reference: u64,
    cell: usize,
    condition: S::Id,
) -> Result<Cond<Answer, S>, SpaceFault>
    requires heap { IsHeap (S.sets space.old) heap.old }
    requires reference { reference < length heap.old.objects }
    requires cell { cell < length (object_in heap.old reference).cells }
    requires known { IsKnown (S.sets space.old) condition }
    requires inside { IsInside (S.sets space.old) condition (object_in heap.old reference).presence }
    requires texts { IsCond answer_cmp (S.sets space.old) texts.now }
    requires scope { texts.now.scope ≡ condition }
    requires given { (c : List Bool) → (S.sets space.old).test condition c ≡ true → IsTextGiven heap.old.texts (chars_at (S.sets space.old) heap.old c reference cell) (answer_at (S.sets space.old) texts.now c) }
    ensures extends { Extends (S.sets space.old) (S.sets space.new) }
    ensures more { IfOk result (λ _. HasMoreTexts heap.old heap.new) }
    ensures cond { IfOk result (IsCond answer_cmp (S.sets space.new)) }
    ensures scope { IfOk result (λ r. r.scope ≡ condition) }
    ensures at { IfOk result (λ r. (c : List Bool) → (S.sets space.old).test condition c ≡ true → IsTextGiven heap.new.texts (chars_at (S.sets space.new) heap.new c reference (cell + 1)) (answer_at (S.sets space.new) r c)) }
{
    let element = heap.read_place(space, reference, cell, condition)?;
    let pairs = texts.zip(space, &element, with_next)?;
    let made = all_appended(alloc, space, heap, &pairs)?;
    Ok(made)
}

/// The text of an array inside a condition, which is inside its presence, as answers that give its number.
fn chars_given<S: Space>(
    alloc: Global,
    space: &mut S,
    heap: &mut Heap<S>,
    reference: u64,
    condition: S::Id,
) -> Result<Cond<Answer, S>, SpaceFault>
    requires heap { IsHeap (S.sets space.old) heap.old }
    requires reference { reference < length heap.old.objects }
    requires known { IsKnown (S.sets space.old) condition }
    requires inside { IsInside (S.sets space.old) condition (object_in heap.old reference).presence }
    ensures extends { Extends (S.sets space.old) (S.sets space.new) }
    ensures more { IfOk result (λ _. HasMoreTexts heap.old heap.new) }
    ensures cond { IfOk result (IsCond answer_cmp (S.sets space.new)) }
    ensures scope { IfOk result (λ r. r.scope ≡ condition) }
    ensures at { IfOk result (λ r. (c : List Bool) → (S.sets space.old).test condition c ≡ true → IsTextGiven heap.new.texts (chars_at (S.sets space.new) heap.new c reference (length (object_in heap.old reference).cells)) (answer_at (S.sets space.new) r c)) }
{
    let count = heap.cell_count(reference);
    let empty = heap.put_text(&[])?;
    let mut texts = Cond::one(alloc, space, Answer::Give(Slot::Text(empty)), condition)?;
    for cell in 0..count {
        texts = with_element(alloc, space, heap, &texts, reference, cell, condition)?;
    }
    Ok(texts)
}

/// The text of the array that a slot names, inside a condition in which it is there; of another slot no text is given.
fn chars_of<S: Space>(
    alloc: Global,
    space: &mut S,
    heap: &mut Heap<S>,
    array: Slot,
    condition: S::Id,
) -> Result<Cond<Answer, S>, SpaceFault>
    requires heap { IsHeap (S.sets space.old) heap.old }
    requires known { IsKnown (S.sets space.old) condition }
    requires somewhere { IsSomewhere (S.sets space.old) condition }
    requires held { (c : List Bool) → (S.sets space.old).test condition c ≡ true → is_held (S.sets space.old) heap.old c array ≡ true }
    ensures extends { Extends (S.sets space.old) (S.sets space.new) }
    ensures more { IfOk result (λ _. HasMoreTexts heap.old heap.new) }
    ensures cond { IfOk result (IsCond answer_cmp (S.sets space.new)) }
    ensures scope { IfOk result (λ r. r.scope ≡ condition) }
    ensures at { IfOk result (λ r. (c : List Bool) → (S.sets space.old).test condition c ≡ true → IsCharsRead (S.sets space.new) heap.new c array (slot_by (answer_at (S.sets space.new) r c))) }
{
    match array {
        Slot::Ref(reference) => {
            let read = chars_given(alloc, space, heap, reference, condition)?;
            Ok(read)
        }
        _ => {
            let none = Cond::one(alloc, space, Answer::Pass, condition)?;
            Ok(none)
        }
    }
}

/// The texts of the arrays that the first value of each call names, or the second, as answers that give their numbers. The heap has more
/// texts afterwards, and is else the same; after want of memory it is given up.
pub(crate) fn chars_read<S: Space>(
    alloc: Global,
    space: &mut S,
    heap: &mut Heap<S>,
    calls: &Cond<Call, S>,
    is_second: bool,
) -> Result<Cond<Answer, S>, SpaceFault>
    requires heap { IsHeap (S.sets space.old) heap.old }
    requires calls { IsCond call_cmp (S.sets space.old) calls.now }
    requires held { AreCallsHeld (S.sets space.old) heap.old calls.now }
    ensures extends { Extends (S.sets space.old) (S.sets space.new) }
    ensures more { IfOk result (λ _. HasMoreTexts heap.old heap.new) }
    ensures ok { IfOk result (AreTold Call.Illegal (IsReadOver (Reading.Chars is_second)) (S.sets space.old) (S.sets space.new) heap.old heap.new calls.now) }
{
    let mut texts = Cond::one(alloc, space, Answer::Illegal, space.never())?;
    let leaves = calls.leaves();
    for leaf in leaves {
        let array = value_of_call(leaf.value, is_second);
        let part = chars_of(alloc, space, heap, array, leaf.condition)?;
        texts = texts.join(space, &part)?;
    }
    Ok(texts)
}
