//! Literals: what the entries of pools name that has an object of its own (JVMS 5.1).

ghost use Rattle.std.specs.Prelude.{◌≡◌, IfOk, option_map};
ghost use Rattle.vx_initial_heap.specs.Literals.{first_of};
ghost use Rattle.vx_java.specs.FirstObjects.{first_of_entry};
ghost use Rattle.vx_link.specs.Names.{utf8};

use crate::units::units_of;
use std::alloc::{AllocError, Global};
use vx_pool::{Entry, Pool, text};

/// A string literal by its UTF-16 units, or a class by its name.
#[derive(Drop, PartialEq, Eq, Hash)]
pub enum Literal {
    Text(Vec<u16>),
    Class(Vec<u8>),
}

fn utf8(pool: &Pool, index: u16) -> &[u8]
    ensures { result.now ≡ utf8 pool.now index }
{
    text(pool, index).unwrap_or(&[])
}

/// The literal that an entry of a pool names, if it names one.
pub fn literal_of(alloc: Global, pool: &Pool, entry: &Entry) -> Result<Option<Literal>, AllocError>
    ensures { IfOk result (λ literal. option_map first_of literal ≡ first_of_entry pool.now entry.now) }
{
    match entry {
        Entry::Text(index) => Ok(Some(Literal::Text(units_of(alloc, utf8(pool, *index))?))),
        Entry::Class(index) => Ok(Some(Literal::Class(Vec::from_slice(
            alloc,
            utf8(pool, *index),
        )?))),
        _ => Ok(None),
    }
}
