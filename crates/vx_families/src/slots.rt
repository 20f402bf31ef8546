//! The operands on top of a group, and what slots are to the types of descriptors.

ghost use Rattle.std.specs.Prelude.{◌≡◌, ◌-◌, ◌<◌, Some, length, slice_get};
ghost use Rattle.vx_families.specs.Sorts.{narrowed_slot, slot_fits};
ghost use Rattle.vx_java.specs.Checks.{sort_of};
ghost use Rattle.vx_java.specs.FirstObjects.{narrow_of_type};

use crate::sorts::slot_is_of;
use vx_cond::Cond;
use vx_desc::JavaType;
use vx_group::Group;
use vx_numbers::narrow;
use vx_references::fields::narrow_of;
use vx_references::sort_of;
use vx_space::Space;
use vx_value::Slot;

/// The operand on top.
pub fn top_operand<S: Space>(group: &Group<S>) -> &Cond<Slot, S>
    requires { 0 < length group.now.top.stack.conds }
    ensures { Some result.now ≡ slice_get group.now.top.stack.conds (length group.now.top.stack.conds - 1) }
{
    let stack = &group.top_frame().stack;
    stack.get(stack.len() - 1)
}

/// The operand below the one on top.
pub fn second_operand<S: Space>(group: &Group<S>) -> &Cond<Slot, S>
    requires { 1 < length group.now.top.stack.conds }
    ensures { Some result.now ≡ slice_get group.now.top.stack.conds (length group.now.top.stack.conds - 2) }
{
    let stack = &group.top_frame().stack;
    stack.get(stack.len() - 2)
}

/// Whether a slot is of the sort of a type.
pub fn fits(field_type: JavaType, slot: Slot) -> bool
    ensures { result ≡ slot_fits (sort_of field_type) slot }
{
    match sort_of(field_type) {
        Some(sort) => slot_is_of(sort, slot),
        None => false,
    }
}

/// The slot that a store to a field of a type puts there (JVMS 6.5 putstatic).
pub fn narrowed(field_type: JavaType, slot: Slot) -> Slot
    ensures { result ≡ narrowed_slot (narrow_of_type field_type) slot }
{
    match (narrow_of(field_type), slot) {
        (Some(to), Slot::Int(n)) => Slot::Int(narrow(to, n)),
        _ => slot,
    }
}
