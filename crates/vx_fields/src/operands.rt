//! What a store or a load of a static field asks of the operands, at each configuration of a group.

ghost use Rattle.std.specs.Prelude.{◌≡◌, ◌&&◌, ◌+◌, ◌<◌, ◌^◌, Bool, IfOk, List, length, nat_le, true};
ghost use Rattle.vx_cond.specs.Cond.{IsCond, IsInside};
ghost use Rattle.vx_cond.specs.Slots.{slot_at, slots_at};
ghost use Rattle.vx_group.specs.Group.{IsGroup, path_of};
ghost use Rattle.vx_java.specs.Checks.{sort_of, width_of_type};
ghost use Rattle.vx_java.specs.FirstObjects.{narrow_of_type};
ghost use Rattle.vx_space.specs.Sets.{Extends, IsKnown, IsSet};
ghost use Rattle.vx_group_states.specs.Answering.{operands_at};
ghost use Rattle.vx_group_states.specs.Widths.{slots_size};
ghost use Rattle.vx_value.specs.Slot.{slot_cmp};
ghost use Rattle.vx_families.specs.Sorts.{narrowed_slot, slot_fits, top_fits, top_of};

use std::alloc::Global;
use vx_cond::Cond;
use vx_desc::JavaType;
use vx_families::{fits, narrowed, top_operand};
use vx_group::Group;
use vx_group_states::stack_size;
use vx_ready::where_yes;
use vx_references::fields::width_of;
use vx_space::{Space, SpaceFault};
use vx_value::Slot;

/// Whether a value of so many words fits beside operands of a size.
fn has_room(size: u64, width: u64, room: u16) -> bool
    ensures { result ≡ nat_le (width + size) room }
{
    size.saturating_add(width) <= u64::from(room)
}

/// The configurations of a group in which a value of a type has room on the operands.
pub(crate) fn where_room<S: Space>(
    alloc: Global,
    space: &mut S,
    group: &Group<S>,
    field_type: JavaType,
    room: u16,
) -> Result<S::Id, SpaceFault>
    requires group { IsGroup (S.sets space.old) group.now }
    requires few { length group.now.top.stack.conds < 2 ^ 32 }
    ensures extends { Extends (S.sets space.old) (S.sets space.new) }
    ensures set { IfOk result (λ r. IsSet (S.sets space.new) r (λ c. (S.sets space.old).test (path_of group.now) c && nat_le (width_of_type field_type + slots_size (slots_at (S.sets space.old) group.now.top.stack c)) room)) }
{
    let width = width_of(field_type);
    let sizes = stack_size(alloc, space, &group.top_frame().stack)?;
    let is_within = |size: u64| -> bool
        ensures { result ≡ nat_le (width + size) room }
    { has_room(size, width, room) };
    let answers = sizes.map(space, is_within)?;
    Ok(where_yes(space, &answers))
}

/// The configurations of a group, which has an operand, in which the operand on top is of the sort of a type.
pub(crate) fn where_fitting<S: Space>(
    space: &mut S,
    group: &Group<S>,
    field_type: JavaType,
) -> Result<S::Id, SpaceFault>
    requires group { IsGroup (S.sets space.old) group.now }
    requires operand { 0 < length group.now.top.stack.conds }
    ensures extends { Extends (S.sets space.old) (S.sets space.new) }
    ensures set { IfOk result (λ r. IsSet (S.sets space.new) r (λ c. (S.sets space.old).test (path_of group.now) c && top_fits (sort_of field_type) (operands_at (S.sets space.old) group.now.top.stack c))) }
{
    let is_fitting = |slot: Slot| -> bool
        ensures { result ≡ slot_fits (sort_of field_type) slot }
    { fits(field_type, slot) };
    let answers = top_operand(group).map(space, is_fitting)?;
    Ok(where_yes(space, &answers))
}

/// The operand on top of a group, as a store to a field of a type puts it there, inside a path.
pub(crate) fn narrowed_top<S: Space>(
    space: &mut S,
    group: &Group<S>,
    field_type: JavaType,
    path: S::Id,
) -> Result<Cond<Slot, S>, SpaceFault>
    requires group { IsGroup (S.sets space.old) group.now }
    requires operand { 0 < length group.now.top.stack.conds }
    requires known { IsKnown (S.sets space.old) path }
    requires inside { IsInside (S.sets space.old) path (path_of group.now) }
    ensures extends { Extends (S.sets space.old) (S.sets space.new) }
    ensures cond { IfOk result (IsCond slot_cmp (S.sets space.new)) }
    ensures scope { IfOk result (λ r. r.scope ≡ path) }
    ensures at { IfOk result (λ r. (c : List Bool) → (S.sets space.old).test path c ≡ true → slot_at (S.sets space.new) r c ≡ narrowed_slot (narrow_of_type field_type) (top_of (operands_at (S.sets space.old) group.now.top.stack c))) }
{
    let inside = top_operand(group).restrict(space, path)?;
    let as_stored = |slot: Slot| -> Slot
        ensures { result ≡ narrowed_slot (narrow_of_type field_type) slot }
    { narrowed(field_type, slot) };
    let values = inside.map(space, as_stored)?;
    Ok(values)
}
