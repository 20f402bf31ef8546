//! Literals, and terms of them.

ghost use Rattle.std.specs.Prelude.{◌≡◌, ◌++◌, ◌∷◌, [], IfOk};

use std::alloc::{AllocError, Global};
use vx_list::Items;

/// An option by its number, which is to be on, or off.
#[derive(Clone, Copy, Debug)]
pub struct Literal {
    pub option: u32,
    pub on: bool,
}

/// Literals that are all to hold.
pub type Term = Items<Literal>;

/// The literals with one more.
pub fn with_literal(
    alloc: Global,
    path: &[Literal],
    literal: Literal,
) -> Result<Vec<Literal>, AllocError>
    ensures { IfOk result (λ longer. longer.items ≡ path.now ++ literal ∷ []) }
{
    let mut longer = Vec::from_slice(alloc, path)?;
    longer.push(literal)?;
    Ok(longer)
}
