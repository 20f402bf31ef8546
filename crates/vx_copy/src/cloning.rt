//! Copies of the arrays that conditional receivers name.

ghost use Rattle.std.specs.Prelude.{◌≡◌, Bool, IfOk, List, true};
ghost use Rattle.vx_cells.specs.Making.{AreAllMade, IsMadeInside};
ghost use Rattle.vx_cond.specs.Cond.{IsCond};
ghost use Rattle.vx_cond.specs.Slots.{slot_at};
ghost use Rattle.vx_group_states.specs.Sites.{IsSomewhere};
ghost use Rattle.vx_heap.specs.Changing.{IsValueHeld};
ghost use Rattle.vx_heap.specs.Heap.{IsHeap, is_held};
ghost use Rattle.vx_java.specs.Ids.{HasClassNumbers};
ghost use Rattle.vx_link.specs.ClassNames.{core_class};
ghost use Rattle.vx_space.specs.Sets.{Extends, IsKnown};
ghost use Rattle.vx_value.specs.Slot.{slot_cmp};
ghost use Rattle.vx_copy.specs.Cloning.{clones_made, no_array};

use std::alloc::Global;
use vx_cells::with_answer;
use vx_cond::Cond;
use vx_group_states::Answer;
use vx_heap::Heap;
use vx_java::core_class;
use vx_java::parts::is_array;
use vx_link::Program;
use vx_space::{Space, SpaceFault};
use vx_value::{ClassId, Slot};

/// What the clone of a receiver comes to that is no object: null raises an exception of this class, and all else breaks a rule.
fn no_array(null: ClassId, receiver: Slot) -> Answer
    ensures { result ≡ no_array null receiver }
{
    match receiver {
        Slot::Null => Answer::Raise(null, None),
        _ => Answer::Illegal,
    }
}

/// What the clone of a receiver comes to in the configurations of a condition, of which there is one at least, and in which what it
/// names is there. The copy of an array is made there.
fn cloned<S: Space>(
    alloc: Global,
    program: &Program,
    space: &mut S,
    heap: &mut Heap<S>,
    null: ClassId,
    receiver: Slot,
    condition: S::Id,
) -> Result<Answer, SpaceFault>
    requires null { null.0 ≡ core_class program.now "java/lang/NullPointerException" }
    requires heap { IsHeap (S.sets space.old) heap.old }
    requires known { IsKnown (S.sets space.old) condition }
    requires somewhere { IsSomewhere (S.sets space.old) condition }
    requires held { (c : List Bool) → (S.sets space.old).test condition c ≡ true → is_held (S.sets space.old) heap.old c receiver ≡ true }
    ensures extends { Extends (S.sets space.old) (S.sets space.new) }
    ensures ok { IfOk result (IsMadeInside (clones_made program.now (S.sets space.old) heap.old (λ _. receiver)) (S.sets space.old) (S.sets space.new) heap.old heap.new condition) }
{
    let Slot::Ref(array) = receiver else {
        return Ok(no_array(null, receiver));
    };
    if !is_array(program, heap.class_of(array)) {
        return Ok(Answer::Illegal);
    }
    let copy = heap.copy_object(alloc, space, array, condition)?;
    Ok(Answer::Give(Slot::Ref(copy)))
}

/// What the clone of receivers comes to at each configuration of their scope: the copy of the array that is the receiver there, or an
/// exception. After want of memory the heap is given up.
pub(crate) fn clones<S: Space>(
    alloc: Global,
    program: &Program,
    space: &mut S,
    heap: &mut Heap<S>,
    receivers: &Cond<Slot, S>,
) -> Result<Cond<Answer, S>, SpaceFault>
    requires classes { HasClassNumbers program.now }
    requires heap { IsHeap (S.sets space.old) heap.old }
    requires receivers { IsCond slot_cmp (S.sets space.old) receivers.now }
    requires held { IsValueHeld (S.sets space.old) heap.old receivers.now }
    ensures extends { Extends (S.sets space.old) (S.sets space.new) }
    ensures ok { IfOk result (AreAllMade (clones_made program.now (S.sets space.old) heap.old (slot_at (S.sets space.old) receivers.now)) (S.sets space.old) (S.sets space.new) heap.old heap.new receivers.now.scope) }
{
    let null = core_class(program, b"java/lang/NullPointerException");
    let mut answers = Cond::one(alloc, space, Answer::Illegal, space.never())?;
    let leaves = receivers.leaves();
    for leaf in leaves {
        let answer = cloned(
            alloc,
            program,
            space,
            heap,
            null,
            leaf.value,
            leaf.condition,
        )?;
        answers = with_answer(alloc, space, &answers, answer, leaf.condition)?;
    }
    Ok(answers)
}
