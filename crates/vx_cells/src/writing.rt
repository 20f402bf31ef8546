//! Writing cells: one slot in a path, and values at conditional places.

ghost use Rattle.std.specs.Prelude.{◌≡◌, Bool, List, OnOk, true};
ghost use Rattle.vx_cells.specs.Places.{place_cmp};
ghost use Rattle.vx_cells.specs.Through.{ArePlacesHeld, is_cell, place_at, written_through};
ghost use Rattle.vx_cond.specs.Cond.{IsCond};
ghost use Rattle.vx_group_states.specs.Sites.{IsSomewhere};
ghost use Rattle.vx_heap.specs.Changing.{IsChangedIn, IsValueHeld, with_cell_of};
ghost use Rattle.vx_heap.specs.Heap.{IsHeap, is_held, name_at, value_of};
ghost use Rattle.vx_space.specs.Sets.{Extends, IsKnown};
ghost use Rattle.vx_value.specs.Slot.{slot_cmp};

use crate::place::Place;
use std::alloc::Global;
use vx_cond::Cond;
use vx_heap::Heap;
use vx_space::{Space, SpaceFault};
use vx_value::Slot;

/// Writes values to the cells at conditional places, each in the configurations of its place: at a configuration whose place
/// is no cell nothing changes. Values and places have one scope. After want of memory the heap is given up.
pub fn write_through<S: Space>(
    space: &mut S,
    heap: &mut Heap<S>,
    places: &Cond<Place, S>,
    values: &Cond<Slot, S>,
) -> Result<(), SpaceFault>
    requires heap { IsHeap (S.sets space.old) heap.old }
    requires places { IsCond place_cmp (S.sets space.old) places.now }
    requires values { IsCond slot_cmp (S.sets space.old) values.now }
    requires scopes { values.now.scope ≡ places.now.scope }
    requires objects { ArePlacesHeld (S.sets space.old) heap.old places.now }
    requires held { IsValueHeld (S.sets space.old) heap.old values.now }
    ensures extends { Extends (S.sets space.old) (S.sets space.new) }
    ensures ok { OnOk result (IsChangedIn (S.sets space.old) (S.sets space.new) heap.old heap.new (λ c. is_cell (place_at (S.sets space.old) places.now c)) (written_through (S.sets space.old) heap.old places.now values.now)) }
{
    let leaves = places.leaves();
    for leaf in leaves {
        if let Place::At(reference, cell) = leaf.value {
            let value = values.restrict(space, leaf.condition)?;
            heap.write_cell(space, reference, cell, &value)?;
        }
    }
    Ok(())
}

/// Writes a slot to a cell of an object in the configurations of a path, of which there is one at least, and in which the object is
/// there and what the slot names. Where there is no such cell, nothing changes. After want of memory the heap is given up.
pub fn write_inside<S: Space>(
    alloc: Global,
    space: &mut S,
    heap: &mut Heap<S>,
    reference: u64,
    cell: u32,
    slot: Slot,
    path: S::Id,
) -> Result<(), SpaceFault>
    requires heap { IsHeap (S.sets space.old) heap.old }
    requires known { IsKnown (S.sets space.old) path }
    requires somewhere { IsSomewhere (S.sets space.old) path }
    requires object { (c : List Bool) → (S.sets space.old).test path c ≡ true → is_held (S.sets space.old) heap.old c (Slot.Ref reference) ≡ true }
    requires held { (c : List Bool) → (S.sets space.old).test path c ≡ true → is_held (S.sets space.old) heap.old c slot ≡ true }
    ensures extends { Extends (S.sets space.old) (S.sets space.new) }
    ensures ok { OnOk result (IsChangedIn (S.sets space.old) (S.sets space.new) heap.old heap.new ((S.sets space.old).test path) (λ c. with_cell_of (name_at (S.sets space.old) heap.old.objects c reference) cell (value_of (S.sets space.old) heap.old c slot))) }
{
    let value = Cond::one(alloc, space, slot, path)?;
    heap.write_cell(space, reference, cell, &value)?;
    Ok(())
}
