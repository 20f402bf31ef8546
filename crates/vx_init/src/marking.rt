//! The marks of a beginning: each class of the chain is in progress, or has failed where the class above the chain has, each in its
//! configurations.

ghost use Rattle.std.specs.Prelude.{◌≡◌, Bool, List, OnOk, if◌then◌else◌, is_some, true};
ghost use Rattle.vx_cond.specs.Cond.{IsInside};
ghost use Rattle.vx_cond.specs.Leaves.{AreLeaves, value_at};
ghost use Rattle.vx_heap.specs.Heap.{IsHeap, IsHeapFor};
ghost use Rattle.vx_ready.specs.Changing.{IsChanged};
ghost use Rattle.vx_ready.specs.Initialising.{with_state};
ghost use Rattle.vx_space.specs.Sets.{Extends, IsKnown};
ghost use Rattle.vx_value.specs.declared.slot.InitState.TheVariants.{Failed};
ghost use Rattle.vx_init.specs.Rising.{first_above, marked_by, marked_if, running};
ghost use Rattle.vx_init.specs.Rises.{rise_cmp};

use crate::rise::Rise;
use crate::upward::{first_above, too_many};
use std::alloc::Global;
use vx_cond::Leaf;
use vx_heap::Heap;
use vx_link::Program;
use vx_ready::mark_classes;
use vx_space::{Space, SpaceFault};
use vx_value::{ClassId, InitState};

/// Marks so many classes from one upward in a condition, unless runs with so many frames would have too many with theirs.
fn mark_running<S: Space>(
    alloc: Global,
    program: &Program,
    space: &mut S,
    heap: &mut Heap<S>,
    class: ClassId,
    frames: u32,
    most: usize,
    condition: S::Id,
) -> Result<(), SpaceFault>
    requires heap { IsHeap (S.sets space.old) heap.old }
    requires program { IsHeapFor program.now heap.old }
    requires known { IsKnown (S.sets space.old) condition }
    requires inside { IsInside (S.sets space.old) condition heap.old.allowed }
    ensures extends { Extends (S.sets space.old) (S.sets space.new) }
    ensures ok { OnOk result (IsChanged (S.sets space.old) (S.sets space.new) heap.old heap.new (λ c g. if (S.sets space.old).test condition c then running frames (first_above program.now class.0 most) g else g)) }
{
    let chain = first_above(alloc, program, class, most)?;
    if too_many(frames, &chain) {
        return Ok(());
    }
    mark_classes(
        alloc,
        program,
        space,
        heap,
        &chain,
        condition,
        InitState::Running,
    )
}

/// Marks so many classes from one upward in a condition as failed.
fn mark_failed<S: Space>(
    alloc: Global,
    program: &Program,
    space: &mut S,
    heap: &mut Heap<S>,
    class: ClassId,
    most: usize,
    condition: S::Id,
) -> Result<(), SpaceFault>
    requires heap { IsHeap (S.sets space.old) heap.old }
    requires program { IsHeapFor program.now heap.old }
    requires known { IsKnown (S.sets space.old) condition }
    requires inside { IsInside (S.sets space.old) condition heap.old.allowed }
    ensures extends { Extends (S.sets space.old) (S.sets space.new) }
    ensures ok { OnOk result (IsChanged (S.sets space.old) (S.sets space.new) heap.old heap.new (λ c g. if (S.sets space.old).test condition c then with_state Failed (first_above program.now class.0 most) g else g)) }
{
    let chain = first_above(alloc, program, class, most)?;
    mark_classes(
        alloc,
        program,
        space,
        heap,
        &chain,
        condition,
        InitState::Failed,
    )
}

/// The marks of one rise, in its condition.
fn mark_rise<S: Space>(
    alloc: Global,
    program: &Program,
    space: &mut S,
    heap: &mut Heap<S>,
    class: ClassId,
    frames: u32,
    rise: Rise,
    condition: S::Id,
) -> Result<(), SpaceFault>
    requires heap { IsHeap (S.sets space.old) heap.old }
    requires program { IsHeapFor program.now heap.old }
    requires known { IsKnown (S.sets space.old) condition }
    requires inside { IsInside (S.sets space.old) condition heap.old.allowed }
    ensures extends { Extends (S.sets space.old) (S.sets space.new) }
    ensures ok { OnOk result (IsChanged (S.sets space.old) (S.sets space.new) heap.old heap.new (λ c g. if (S.sets space.old).test condition c then marked_by program.now class.0 frames rise g else g)) }
{
    match rise {
        Rise::Open => {
            let all = program.classes.len();
            mark_running(alloc, program, space, heap, class, frames, all, condition)
        }
        Rise::Begins(below) => {
            mark_running(alloc, program, space, heap, class, frames, below, condition)
        }
        Rise::Fails(below) => mark_failed(alloc, program, space, heap, class, below, condition),
        Rise::Blocked(_) => Ok(()),
    }
}

/// The marks of all rises, each in its condition, which runs. After want of memory the heap is given up.
pub(crate) fn mark_rises<S: Space>(
    alloc: Global,
    program: &Program,
    space: &mut S,
    heap: &mut Heap<S>,
    class: ClassId,
    frames: u32,
    rises: &[Leaf<Rise, S>],
) -> Result<(), SpaceFault>
    requires heap { IsHeap (S.sets space.old) heap.old }
    requires program { IsHeapFor program.now heap.old }
    requires leaves { AreLeaves rise_cmp (S.sets space.old) rises.now }
    requires inside { (c : List Bool) → is_some (value_at (S.sets space.old) rises.now c) ≡ true → (S.sets space.old).test heap.old.allowed c ≡ true }
    ensures extends { Extends (S.sets space.old) (S.sets space.new) }
    ensures ok { OnOk result (IsChanged (S.sets space.old) (S.sets space.new) heap.old heap.new (λ c. marked_if program.now class.0 frames (value_at (S.sets space.old) rises.now c))) }
{
    for leaf in rises {
        let condition = leaf.condition;
        mark_rise(
            alloc, program, space, heap, class, frames, leaf.value, condition,
        )?;
    }
    Ok(())
}
