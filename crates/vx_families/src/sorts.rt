//! Sorts of slots.

ghost use Rattle.std.specs.Prelude.{◌≡◌};
ghost use Rattle.vx_families.specs.Sorts.{slot_is_of};

use vx_java::Sort;
use vx_value::Slot;

/// Whether a slot holds a value of a sort.
pub fn slot_is_of(sort: Sort, slot: Slot) -> bool
    ensures { result ≡ slot_is_of sort slot }
{
    match (sort, slot) {
        (Sort::Int, Slot::Int(_))
        | (Sort::Long, Slot::Long(_))
        | (Sort::Reference, Slot::Null | Slot::Ref(_)) => true,
        _ => false,
    }
}
