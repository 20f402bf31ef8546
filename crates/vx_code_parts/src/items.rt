//! Values in order that get one more.

ghost use Rattle.std.specs.Prelude.{◌≡◌, ◌++◌, ◌∷◌, [], IfOk};

use std::alloc::AllocError;
use vx_list::Items;

/// An item behind the others.
pub fn pushed<T: Drop>(items: Items<T>, item: T) -> Result<Items<T>, AllocError>
    ensures { IfOk result (λ v. v ≡ items ++ item ∷ []) }
{
    let mut items = items.into_vec();
    items.push(item)?;
    Ok(Items::of(items))
}
