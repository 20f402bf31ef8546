//! Lists that get one more where they stand.

ghost use Rattle.std.specs.Prelude.{◌≡◌, ◌++◌, ◌∷◌, [], OnErr, OnOk};

use std::alloc::{AllocError, Global};
use std::mem;
use vx_list::Items;

/// An item behind the others, which want of memory leaves as they were.
pub fn push<T: Drop>(alloc: Global, items: &mut Items<T>, item: T) -> Result<(), AllocError>
    ensures ok { OnOk result (items.new ≡ items.old ++ item ∷ []) }
    ensures err { OnErr result (items.new ≡ items.old) }
{
    let mut list = mem::replace(items, Items::of(Vec::new(alloc))).into_vec();
    let put = list.push(item);
    *items = Items::of(list);
    put?;
    Ok(())
}
