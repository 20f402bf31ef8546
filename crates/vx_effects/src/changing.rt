//! Effects that write cells of an object.

ghost use Rattle.std.specs.Prelude.{◌≡◌, IfOk, OnOk, true};
ghost use Rattle.vx_effects.specs.Carrying.{IsHeldIn, IsOneDone};
ghost use Rattle.vx_group_states.specs.Sites.{IsSomewhere};
ghost use Rattle.vx_heap.specs.Heap.{IsHeap};
ghost use Rattle.vx_link.specs.declared.program.Program.{Program};
ghost use Rattle.vx_natives.specs.Deeds.{changes_text, deed_says, sets_cells, sets_text};
ghost use Rattle.vx_space.specs.Sets.{Extends, IsKnown};

use crate::giving::text_number;
use std::alloc::Global;
use vx_cells::write_inside;
use vx_group_states::Answer;
use vx_heap::Heap;
use vx_space::{Space, SpaceFault};
use vx_value::Slot;

/// The first cell of an object gets a text.
fn set_text<S: Space>(
    alloc: Global,
    space: &mut S,
    heap: &mut Heap<S>,
    object: u64,
    start: Slot,
    units: &[u16],
    condition: S::Id,
) -> Result<(), SpaceFault>
    requires heap { IsHeap (S.sets space.old) heap.old }
    requires known { IsKnown (S.sets space.old) condition }
    requires somewhere { IsSomewhere (S.sets space.old) condition }
    requires held { IsHeldIn (S.sets space.old) heap.old condition (sets_text object start units.now) }
    ensures extends { Extends (S.sets space.old) (S.sets space.new) }
    ensures set { OnOk result ((p : Program) → IsOneDone p (S.sets space.old) (S.sets space.new) heap.old heap.new condition (deed_says (S.sets space.old) heap.old (sets_text object start units.now)) Answer.Pass) }
    ensures changed { OnOk result ((p : Program) → IsOneDone p (S.sets space.old) (S.sets space.new) heap.old heap.new condition (deed_says (S.sets space.old) heap.old (changes_text object start units.now)) (Answer.Give (Slot.Ref object))) }
{
    let number = text_number(heap, start, units)?;
    write_inside(alloc, space, heap, object, 0, Slot::Text(number), condition)?;
    Ok(())
}

/// The first cell of an object gets a text, and nothing is given.
pub(crate) fn text_set<S: Space>(
    alloc: Global,
    space: &mut S,
    heap: &mut Heap<S>,
    object: u64,
    start: Slot,
    units: Vec<u16>,
    condition: S::Id,
) -> Result<Answer, SpaceFault>
    requires heap { IsHeap (S.sets space.old) heap.old }
    requires known { IsKnown (S.sets space.old) condition }
    requires somewhere { IsSomewhere (S.sets space.old) condition }
    requires held { IsHeldIn (S.sets space.old) heap.old condition (sets_text object start units.items) }
    ensures extends { Extends (S.sets space.old) (S.sets space.new) }
    ensures done { IfOk result (λ a. (p : Program) → IsOneDone p (S.sets space.old) (S.sets space.new) heap.old heap.new condition (deed_says (S.sets space.old) heap.old (sets_text object start units.items)) a) }
{
    set_text(alloc, space, heap, object, start, &units, condition)?;
    Ok(Answer::Pass)
}

/// The first cell of an object gets a text, and the object is given.
pub(crate) fn text_changed<S: Space>(
    alloc: Global,
    space: &mut S,
    heap: &mut Heap<S>,
    object: u64,
    start: Slot,
    units: Vec<u16>,
    condition: S::Id,
) -> Result<Answer, SpaceFault>
    requires heap { IsHeap (S.sets space.old) heap.old }
    requires known { IsKnown (S.sets space.old) condition }
    requires somewhere { IsSomewhere (S.sets space.old) condition }
    requires held { IsHeldIn (S.sets space.old) heap.old condition (sets_text object start units.items) }
    ensures extends { Extends (S.sets space.old) (S.sets space.new) }
    ensures done { IfOk result (λ a. (p : Program) → IsOneDone p (S.sets space.old) (S.sets space.new) heap.old heap.new condition (deed_says (S.sets space.old) heap.old (changes_text object start units.items)) a) }
{
    set_text(alloc, space, heap, object, start, &units, condition)?;
    Ok(Answer::Give(Slot::Ref(object)))
}

/// The first two cells of an object get values, and nothing is given.
pub(crate) fn set_cells<S: Space>(
    alloc: Global,
    space: &mut S,
    heap: &mut Heap<S>,
    object: u64,
    first: Slot,
    second: Slot,
    condition: S::Id,
) -> Result<Answer, SpaceFault>
    requires heap { IsHeap (S.sets space.old) heap.old }
    requires known { IsKnown (S.sets space.old) condition }
    requires somewhere { IsSomewhere (S.sets space.old) condition }
    requires held { IsHeldIn (S.sets space.old) heap.old condition (sets_cells object first second) }
    ensures extends { Extends (S.sets space.old) (S.sets space.new) }
    ensures done { IfOk result (λ a. (p : Program) → IsOneDone p (S.sets space.old) (S.sets space.new) heap.old heap.new condition (deed_says (S.sets space.old) heap.old (sets_cells object first second)) a) }
{
    write_inside(alloc, space, heap, object, 0, first, condition)?;
    write_inside(alloc, space, heap, object, 1, second, condition)?;
    Ok(Answer::Pass)
}
