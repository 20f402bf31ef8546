//! What comes of places that are no cells.

ghost use Rattle.std.specs.Prelude.{◌≡◌, IfOk};
ghost use Rattle.std.specs.Fmt.{signed_decimal};
ghost use Rattle.vx_cells.specs.Places.{place_cmp};
ghost use Rattle.vx_cells.specs.Through.{AreAnswers, IsAnswered, IsPass, IsRefusals};
ghost use Rattle.vx_cond.specs.Cond.{AreDisjoint, IsCond, IsCondOf, cond_at};
ghost use Rattle.vx_cond.specs.Leaves.{value_under};
ghost use Rattle.vx_families.specs.Texts.{HasMoreTexts};
ghost use Rattle.vx_group_states.specs.Answers.{answer_cmp};
ghost use Rattle.vx_java.specs.Ids.{HasClassNumbers};
ghost use Rattle.vx_link.specs.declared.program.Program.{Program};
ghost use Rattle.vx_space.specs.Sets.{Extends, IsKnown};

use crate::place::Place;
use itoa::Buffer;
use std::alloc::{AllocError, Global};
use vx_cond::Cond;
use vx_group_states::Answer;
use vx_heap::Heap;
use vx_java::core_class;
use vx_link::Program;
use vx_space::{Space, SpaceFault};
use vx_value::ClassId;

/// The classes of what places raise that are no cells.
#[derive(Clone, Copy)]
pub struct Refusals {
    pub null: ClassId,
    pub outside: ClassId,
    pub refused: ClassId,
}

/// Those of a program.
pub fn refusals_of(program: &Program) -> Refusals
    requires { HasClassNumbers program.now }
    ensures { IsRefusals program.now result }
{
    Refusals {
        null: core_class(program, b"java/lang/NullPointerException"),
        outside: core_class(program, b"java/lang/ArrayIndexOutOfBoundsException"),
        refused: core_class(program, b"java/lang/ArrayStoreException"),
    }
}

/// The decimal spelling of an index.
fn spelled(alloc: Global, index: i32) -> Result<Vec<u16>, AllocError>
    ensures { IfOk result (λ units. units.items ≡ signed_decimal index) }
{
    let mut buffer = Buffer::new();
    let digits = buffer.format(index).as_bytes();
    let mut units = Vec::new(alloc);
    for digit in digits {
        units.push(u16::from(*digit))?;
    }
    Ok(units)
}

/// What a place comes to, where a cell is passed. The text of a message is in the heap then.
fn answer_at<S: Space>(
    alloc: Global,
    refusals: Refusals,
    heap: &mut Heap<S>,
    place: Place,
) -> Result<Answer, AllocError>
    ensures answer { IfOk result (λ answer. (program : Program) → IsRefusals program refusals → IsAnswered program heap.new IsPass place answer) }
    ensures more { IfOk result (λ _. HasMoreTexts heap.old heap.new) }
{
    match place {
        Place::Illegal => Ok(Answer::Illegal),
        Place::Null => Ok(Answer::Raise(refusals.null, None)),
        Place::Outside(index) => {
            let units = spelled(alloc, index)?;
            Ok(Answer::Raise(refusals.outside, Some(heap.put_text(&units)?)))
        }
        Place::Refused => Ok(Answer::Raise(refusals.refused, None)),
        Place::At(_, _) => Ok(Answer::Pass),
    }
}

/// Answers with another one in a condition in which there was none.
pub fn with_answer<S: Space>(
    alloc: Global,
    space: &mut S,
    answers: &Cond<Answer, S>,
    answer: Answer,
    condition: S::Id,
) -> Result<Cond<Answer, S>, SpaceFault>
    requires answers { IsCond answer_cmp (S.sets space.old) answers.now }
    requires known { IsKnown (S.sets space.old) condition }
    requires disjoint { AreDisjoint (S.sets space.old) answers.now.scope condition }
    ensures extends { Extends (S.sets space.old) (S.sets space.new) }
    ensures ok { IfOk result (IsCondOf answer_cmp (S.sets space.new) (value_under (S.sets space.old) condition answer (cond_at (S.sets space.old) answers.now))) }
{
    let made = Cond::one(alloc, space, answer, condition)?;
    answers.join(space, &made)
}

/// What places come to at each configuration, where a cell is passed: a place that is no cell ends the run or raises an
/// exception. The message of an index is put into the heap, which is else the same. After want of memory the heap is given
/// up.
pub fn passes_at<S: Space>(
    alloc: Global,
    program: &Program,
    space: &mut S,
    heap: &mut Heap<S>,
    places: &Cond<Place, S>,
) -> Result<Cond<Answer, S>, SpaceFault>
    requires classes { HasClassNumbers program.now }
    requires places { IsCond place_cmp (S.sets space.old) places.now }
    ensures extends { Extends (S.sets space.old) (S.sets space.new) }
    ensures more { IfOk result (λ _. HasMoreTexts heap.old heap.new) }
    ensures ok { IfOk result (AreAnswers program.now (S.sets space.old) (S.sets space.new) heap.new (λ _. IsPass) places.now) }
{
    let refusals = refusals_of(program);
    let mut answers = Cond::one(alloc, space, Answer::Illegal, space.never())?;
    let leaves = places.leaves();
    for leaf in leaves {
        let answer = answer_at(alloc, refusals, heap, leaf.value)?;
        answers = with_answer(alloc, space, &answers, answer, leaf.condition)?;
    }
    Ok(answers)
}
