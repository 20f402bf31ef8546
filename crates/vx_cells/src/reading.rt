//! Reading cells at conditional places.

ghost use Rattle.std.specs.Prelude.{◌≡◌, ◌<◌, Bool, IfOk, List, length, true};
ghost use Rattle.vx_cells.specs.Places.{place_cmp};
ghost use Rattle.vx_cells.specs.Through.{AreAnswers, ArePlacesHeld, IsGivenFrom, IsGivenWhereCell, place_at};
ghost use Rattle.vx_cond.specs.Cond.{IsCond, IsInside};
ghost use Rattle.vx_families.specs.Texts.{HasMoreTexts};
ghost use Rattle.vx_group_states.specs.Answering.{answer_at};
ghost use Rattle.vx_group_states.specs.Answers.{answer_cmp};
ghost use Rattle.vx_heap.specs.Heap.{IsHeap, object_in};
ghost use Rattle.vx_java.specs.Ids.{HasClassNumbers};
ghost use Rattle.vx_space.specs.Sets.{Extends, IsKnown};

use crate::place::Place;
use crate::refusing::passes_at;
use std::alloc::Global;
use vx_cond::Cond;
use vx_group_states::Answer;
use vx_heap::Heap;
use vx_link::Program;
use vx_space::{Space, SpaceFault};
use vx_value::Slot;

fn give(slot: Slot) -> Answer
    ensures { result ≡ Answer.Give slot }
{
    Answer::Give(slot)
}

/// The values of a cell inside a condition, which is inside the presence of its object, as answers.
fn given_inside<S: Space>(
    space: &mut S,
    heap: &Heap<S>,
    reference: u64,
    cell: u32,
    condition: S::Id,
) -> Result<Cond<Answer, S>, SpaceFault>
    requires heap { IsHeap (S.sets space.old) heap.now }
    requires reference { reference < length heap.now.objects }
    requires known { IsKnown (S.sets space.old) condition }
    requires inside { IsInside (S.sets space.old) condition (object_in heap.now reference).presence }
    ensures extends { Extends (S.sets space.old) (S.sets space.new) }
    ensures cond { IfOk result (IsCond answer_cmp (S.sets space.new)) }
    ensures scope { IfOk result (λ r. r.scope ≡ condition) }
    ensures at { IfOk result (λ r. (c : List Bool) → (S.sets space.old).test condition c ≡ true → IsGivenFrom (S.sets space.old) heap.now c reference cell (answer_at (S.sets space.new) r c)) }
{
    let value = heap.read_cell(space, reference, cell, condition)?;
    let given = value.map(space, give)?;
    Ok(given)
}

/// Answers with the values of the cells at places given, and else as they were.
pub fn given_at<S: Space>(
    space: &mut S,
    heap: &Heap<S>,
    places: &Cond<Place, S>,
    answers: Cond<Answer, S>,
) -> Result<Cond<Answer, S>, SpaceFault>
    requires heap { IsHeap (S.sets space.old) heap.now }
    requires places { IsCond place_cmp (S.sets space.old) places.now }
    requires held { ArePlacesHeld (S.sets space.old) heap.now places.now }
    requires answers { IsCond answer_cmp (S.sets space.old) answers }
    requires scopes { answers.scope ≡ places.now.scope }
    ensures extends { Extends (S.sets space.old) (S.sets space.new) }
    ensures cond { IfOk result (IsCond answer_cmp (S.sets space.new)) }
    ensures scope { IfOk result (λ r. r.scope ≡ places.now.scope) }
    ensures at { IfOk result (λ r. (c : List Bool) → (S.sets space.old).test places.now.scope c ≡ true → IsGivenWhereCell (S.sets space.old) heap.now c (place_at (S.sets space.old) places.now c) (answer_at (S.sets space.old) answers c) (answer_at (S.sets space.new) r c)) }
{
    let mut made = answers;
    let leaves = places.leaves();
    for leaf in leaves {
        if let Place::At(reference, cell) = leaf.value {
            let given = given_inside(space, heap, reference, cell, leaf.condition)?;
            made = made.overwrite(space, &given)?;
        }
    }
    Ok(made)
}

/// What reading at conditional places comes to at each configuration: the value of a cell is given, and a place that is no
/// cell ends the run or raises an exception. The message of an index is put into the heap, which is else the same. After
/// want of memory the heap is given up.
pub fn read_through<S: Space>(
    alloc: Global,
    program: &Program,
    space: &mut S,
    heap: &mut Heap<S>,
    places: &Cond<Place, S>,
) -> Result<Cond<Answer, S>, SpaceFault>
    requires classes { HasClassNumbers program.now }
    requires heap { IsHeap (S.sets space.old) heap.old }
    requires places { IsCond place_cmp (S.sets space.old) places.now }
    requires held { ArePlacesHeld (S.sets space.old) heap.old places.now }
    ensures extends { Extends (S.sets space.old) (S.sets space.new) }
    ensures more { IfOk result (λ _. HasMoreTexts heap.old heap.new) }
    ensures ok { IfOk result (AreAnswers program.now (S.sets space.old) (S.sets space.new) heap.new (IsGivenFrom (S.sets space.old) heap.new) places.now) }
{
    let passes = passes_at(alloc, program, space, heap, places)?;
    let answers = given_at(space, heap, places, passes)?;
    Ok(answers)
}
