//! Calls of a native method carried out at all configurations, leaf by leaf.

ghost use Rattle.std.specs.Prelude.{◌≡◌, Bool, IfOk, List, true};
ghost use Rattle.vx_cond.specs.Cond.{IsCond, IsInside};
ghost use Rattle.vx_group_states.specs.Sites.{IsSomewhere};
ghost use Rattle.vx_heap.specs.Heap.{IsHeap, IsHeapFor};
ghost use Rattle.vx_java.specs.Ids.{HasClassNumbers};
ghost use Rattle.vx_natives.specs.CallOrder.{call_cmp};
ghost use Rattle.vx_natives.specs.Calls.{call_at};
ghost use Rattle.vx_natives.specs.Doing.{AreDone, IsDone};
ghost use Rattle.vx_natives.specs.Readings.{IsCallOr, said};
ghost use Rattle.vx_space.specs.Sets.{Extends, IsKnown};

use crate::effects::effect_of;
use std::alloc::Global;
use vx_cond::Cond;
use vx_effects::carry;
use vx_group_states::Answer;
use vx_heap::Heap;
use vx_link::Program;
use vx_natives::{Behaviour, Call};
use vx_space::{Space, SpaceFault};

/// Carries out one call in a condition in which some configuration is. The heap may change in the condition; after want of memory it is
/// given up.
fn done<S: Space>(
    alloc: Global,
    program: &Program,
    space: &mut S,
    heap: &mut Heap<S>,
    behaviour: Behaviour,
    call: Call,
    condition: S::Id,
) -> Result<Cond<Answer, S>, SpaceFault>
    requires classes { HasClassNumbers program.now }
    requires heap { IsHeap (S.sets space.old) heap.old }
    requires for_program { IsHeapFor program.now heap.old }
    requires known { IsKnown (S.sets space.old) condition }
    requires somewhere { IsSomewhere (S.sets space.old) condition }
    requires runs { IsInside (S.sets space.old) condition heap.old.allowed }
    requires call { (c : List Bool) → (S.sets space.old).test condition c ≡ true → IsCallOr (S.sets space.old) heap.old c behaviour call }
    ensures extends { Extends (S.sets space.old) (S.sets space.new) }
    ensures done { IfOk result (IsDone program.now (S.sets space.old) (S.sets space.new) heap.old heap.new condition (said (S.sets space.old) heap.old behaviour call)) }
{
    let effect = effect_of(alloc, program, heap, behaviour, call)?;
    carry(alloc, program, space, heap, effect, condition)
}

/// Carries out all calls of a method that does this. After want of memory the heap is given up.
pub(crate) fn all_done<S: Space>(
    alloc: Global,
    program: &Program,
    space: &mut S,
    heap: &mut Heap<S>,
    behaviour: Behaviour,
    calls: &Cond<Call, S>,
) -> Result<Cond<Answer, S>, SpaceFault>
    requires classes { HasClassNumbers program.now }
    requires heap { IsHeap (S.sets space.old) heap.old }
    requires for_program { IsHeapFor program.now heap.old }
    requires calls { IsCond call_cmp (S.sets space.old) calls.now }
    requires runs { IsInside (S.sets space.old) calls.now.scope heap.old.allowed }
    requires each { (c : List Bool) → (S.sets space.old).test calls.now.scope c ≡ true → IsCallOr (S.sets space.old) heap.old c behaviour (call_at (S.sets space.old) calls.now c) }
    ensures extends { Extends (S.sets space.old) (S.sets space.new) }
    ensures done { IfOk result (AreDone Call.Illegal program.now (S.sets space.old) (S.sets space.new) heap.old heap.new (said (S.sets space.old) heap.old behaviour) calls.now) }
{
    let mut answers = Cond::one(alloc, space, Answer::Illegal, space.never())?;
    let leaves = calls.leaves();
    for leaf in leaves {
        let part = done(
            alloc,
            program,
            space,
            heap,
            behaviour,
            leaf.value,
            leaf.condition,
        )?;
        answers = answers.join(space, &part)?;
    }
    Ok(answers)
}
