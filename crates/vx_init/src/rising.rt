//! How far the classes whose initialisation has not begun go up from a class, in all configurations of a path at once.

ghost use Rattle.std.specs.Prelude.{◌≡◌, Bool, IfOk, List, None, Some, true};
ghost use Rattle.std.specs.List.{list_any};
ghost use Rattle.vx_cond.specs.Cond.{IsCond, IsInside, cond_at};
ghost use Rattle.vx_heap.specs.Heap.{IsHeap, IsHeapFor, inits_at};
ghost use Rattle.vx_java.specs.Ids.{HasClassNumbers};
ghost use Rattle.vx_space.specs.Sets.{Extends, IsKnown};
ghost use Rattle.vx_init.specs.Rising.{climbed, climbed_at, is_open, rise_of};
ghost use Rattle.vx_init.specs.Rises.{rise_cmp};

use crate::rise::{Rise, climbed, is_open};
use std::alloc::Global;
use vx_cond::{Cond, Leaf};
use vx_heap::Heap;
use vx_java::blocked;
use vx_java::parts::superclass_of;
use vx_link::Program;
use vx_ready::states_inside;
use vx_space::{Space, SpaceFault};
use vx_value::{ClassId, InitState};

fn is_open_leaf<S: Space>(leaf: &Leaf<Rise, S>) -> bool
    ensures { result ≡ is_open leaf.now.value }
{
    is_open(leaf.value)
}

/// Whether the walk may go on somewhere.
fn some_open<S: Space>(rises: &Cond<Rise, S>) -> bool
    ensures { result ≡ list_any (λ leaf. is_open leaf.value) rises.now.leaves }
{
    rises.leaves().iter().any(|leaf| is_open_leaf(leaf))
}

/// One class more, with so many below it.
fn risen<S: Space>(
    alloc: Global,
    program: &Program,
    space: &mut S,
    heap: &Heap<S>,
    class: ClassId,
    below: usize,
    rises: &Cond<Rise, S>,
) -> Result<Cond<Rise, S>, SpaceFault>
    requires classes { HasClassNumbers program.now }
    requires heap { IsHeap (S.sets space.old) heap.now }
    requires program { IsHeapFor program.now heap.now }
    requires rises { IsCond rise_cmp (S.sets space.old) rises.now }
    requires inside { IsInside (S.sets space.old) rises.now.scope heap.now.allowed }
    ensures extends { Extends (S.sets space.old) (S.sets space.new) }
    ensures cond { IfOk result (IsCond rise_cmp (S.sets space.new)) }
    ensures scope { IfOk result (λ r. r.scope ≡ rises.now.scope) }
    ensures at { IfOk result (λ r. (c : List Bool) (rise : Rise) → cond_at (S.sets space.old) rises.now c ≡ Some rise → cond_at (S.sets space.new) r c ≡ Some (climbed_at program.now (inits_at (S.sets space.old) heap.now c) below class.0 rise)) }
{
    let states = states_inside(alloc, program, space, heap, class, rises.scope())?;
    let blocking = blocked(program, class);
    let climb = |rise: Rise, state: InitState| -> Rise
        ensures { result ≡ climbed rise state below blocking }
    { climbed(rise, state, below, blocking) };
    let more = rises.zip(space, &states, climb)?;
    Ok(more)
}

/// How far the classes whose initialisation has not begun go up from a class, at each configuration of a path, which runs.
pub(crate) fn rises<S: Space>(
    alloc: Global,
    program: &Program,
    space: &mut S,
    heap: &Heap<S>,
    class: ClassId,
    path: S::Id,
) -> Result<Cond<Rise, S>, SpaceFault>
    requires classes { HasClassNumbers program.now }
    requires heap { IsHeap (S.sets space.old) heap.now }
    requires program { IsHeapFor program.now heap.now }
    requires known { IsKnown (S.sets space.old) path }
    requires inside { IsInside (S.sets space.old) path heap.now.allowed }
    ensures extends { Extends (S.sets space.old) (S.sets space.new) }
    ensures cond { IfOk result (IsCond rise_cmp (S.sets space.new)) }
    ensures scope { IfOk result (λ r. r.scope ≡ path) }
    ensures at { IfOk result (λ r. (c : List Bool) → (S.sets space.old).test path c ≡ true → cond_at (S.sets space.new) r c ≡ Some (rise_of program.now (inits_at (S.sets space.old) heap.now c) class.0)) }
{
    let mut rises = Cond::one(alloc, space, Rise::Open, path)?;
    let mut next = Some(class);
    for below in 0..program.classes.len() {
        let Some(class) = next else {
            return Ok(rises);
        };
        if !some_open(&rises) {
            return Ok(rises);
        }
        rises = risen(alloc, program, space, heap, class, below, &rises)?;
        next = superclass_of(program, class);
    }
    Ok(rises)
}
