//! Effects of native methods, carried out in the configurations of a condition.

ghost use Rattle.std.specs.Prelude.{◌≡◌, IfOk, false};
ghost use Rattle.vx_effects.specs.Carrying.{IsHeldIn, IsOneDone, integer_in, is_copy};
ghost use Rattle.vx_group_states.specs.Sites.{IsSomewhere};
ghost use Rattle.vx_heap.specs.Heap.{IsHeap};
ghost use Rattle.vx_java.specs.Ids.{HasClassNumbers};
ghost use Rattle.vx_natives.specs.Deeds.{deed_of, deed_says};
ghost use Rattle.vx_natives.specs.Doing.{IsDone};
ghost use Rattle.vx_space.specs.Sets.{Extends, IsKnown};

use crate::changing::{set_cells, text_changed, text_set};
use crate::copying::copied;
use crate::giving::{give_chars, give_integer, give_text, print, raised};
use std::alloc::Global;
use vx_cond::Cond;
use vx_group_states::Answer;
use vx_heap::Heap;
use vx_link::Program;
use vx_natives::Effect;
use vx_space::{Space, SpaceFault};

/// The value of the Integer that an effect gives, and 0 where it gives none.
fn integer_in(effect: &Effect) -> i32
    ensures { result ≡ integer_in effect.now }
{
    match effect {
        Effect::GiveInteger(n) => *n,
        _ => 0,
    }
}

/// An effect with its one answer: any but the copy of an array.
fn answer_to<S: Space>(
    alloc: Global,
    program: &Program,
    space: &mut S,
    heap: &mut Heap<S>,
    effect: Effect,
    condition: S::Id,
) -> Result<Answer, SpaceFault>
    requires classes { HasClassNumbers program.now }
    requires heap { IsHeap (S.sets space.old) heap.old }
    requires known { IsKnown (S.sets space.old) condition }
    requires somewhere { IsSomewhere (S.sets space.old) condition }
    requires held { IsHeldIn (S.sets space.old) heap.old condition (deed_of effect) }
    requires one { is_copy (deed_of effect) ≡ false }
    ensures extends { Extends (S.sets space.old) (S.sets space.new) }
    ensures done { IfOk result (IsOneDone program.now (S.sets space.old) (S.sets space.new) heap.old heap.new condition (deed_says (S.sets space.old) heap.old (deed_of effect))) }
{
    let number = integer_in(&effect);
    match effect {
        Effect::Answer(answer) => Ok(answer),
        Effect::Raise(exception) => Ok(raised(program, exception)),
        Effect::GiveText(start, units) => {
            give_text(alloc, program, heap, start, units, condition)
        }
        Effect::GiveChars(units) => give_chars(alloc, program, heap, units, condition),
        Effect::GiveInteger(_) => give_integer(alloc, program, heap, number, condition),
        Effect::Print(stream, start, units) => print(heap, stream, start, units),
        Effect::SetText(object, start, units) => {
            text_set(alloc, space, heap, object, start, units, condition)
        }
        Effect::ChangeText(object, start, units) => {
            text_changed(alloc, space, heap, object, start, units, condition)
        }
        Effect::SetCells(object, first, second) => {
            set_cells(alloc, space, heap, object, first, second, condition)
        }
        Effect::Copy(..) => unreachable!(),
    }
}

/// The same as a conditional answer.
fn answered<S: Space>(
    alloc: Global,
    program: &Program,
    space: &mut S,
    heap: &mut Heap<S>,
    effect: Effect,
    condition: S::Id,
) -> Result<Cond<Answer, S>, SpaceFault>
    requires classes { HasClassNumbers program.now }
    requires heap { IsHeap (S.sets space.old) heap.old }
    requires known { IsKnown (S.sets space.old) condition }
    requires somewhere { IsSomewhere (S.sets space.old) condition }
    requires held { IsHeldIn (S.sets space.old) heap.old condition (deed_of effect) }
    requires one { is_copy (deed_of effect) ≡ false }
    ensures extends { Extends (S.sets space.old) (S.sets space.new) }
    ensures done { IfOk result (IsDone program.now (S.sets space.old) (S.sets space.new) heap.old heap.new condition (deed_says (S.sets space.old) heap.old (deed_of effect))) }
{
    let answer = answer_to(alloc, program, space, heap, effect, condition)?;
    let one = Cond::one(alloc, space, answer, condition)?;
    Ok(one)
}

/// Carries out an effect in a condition in which some configuration is, and in which what the effect names is there. The heap may change in
/// the condition; after want of memory it is given up.
pub fn carry<S: Space>(
    alloc: Global,
    program: &Program,
    space: &mut S,
    heap: &mut Heap<S>,
    effect: Effect,
    condition: S::Id,
) -> Result<Cond<Answer, S>, SpaceFault>
    requires classes { HasClassNumbers program.now }
    requires heap { IsHeap (S.sets space.old) heap.old }
    requires known { IsKnown (S.sets space.old) condition }
    requires somewhere { IsSomewhere (S.sets space.old) condition }
    requires held { IsHeldIn (S.sets space.old) heap.old condition (deed_of effect) }
    ensures extends { Extends (S.sets space.old) (S.sets space.new) }
    ensures done { IfOk result (IsDone program.now (S.sets space.old) (S.sets space.new) heap.old heap.new condition (deed_says (S.sets space.old) heap.old (deed_of effect))) }
{
    match effect {
        Effect::Copy(array, from, other, to, count) => copied(
            alloc, program, space, heap, array, from, other, to, count, condition,
        ),
        effect => answered(alloc, program, space, heap, effect, condition),
    }
}
