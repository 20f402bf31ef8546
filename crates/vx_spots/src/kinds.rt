//! What is lacking in a program, each kind once.

ghost use Rattle.std.specs.Prelude.{◌≡◌, IfOk, OnOk, fold};
ghost use Rattle.vx_spots.specs.Entries.{key_of, kind_of, kinds_of, with_kind, with_kinds};

use std::alloc::{AllocError, Global};
use std::hash::{DefaultHasher, Hasher};
use vx_list::Keyed;
use vx_may_end::{Lack, Spot};
use vx_names::NameTable;

/// What tells one kind from another: the number of the word in front of the name.
fn key_of(alloc: Global, lack: &Lack) -> Result<Vec<u8>, AllocError>
    ensures { IfOk result (λ key. key.items ≡ key_of lack.now) }
{
    let mut key = Vec::new(alloc);
    key.push(lack.word)?;
    key.extend_from_slice(lack.what.bytes())?;
    Ok(key)
}

/// Puts the kind of a lack behind those that are known, unless it is known.
fn put_kind(alloc: Global, kinds: &mut NameTable, lack: &Lack) -> Result<(), AllocError>
    ensures { OnOk result (kinds.new ≡ with_kind kinds.old lack.now) }
{
    kinds.add(key_of(alloc, lack)?)?;
    Ok(())
}

/// Puts the kinds of what a spot lacks behind those that are known.
fn put_kinds(alloc: Global, kinds: &mut NameTable, spot: &Spot) -> Result<(), AllocError>
    ensures { OnOk result (kinds.new ≡ with_kinds kinds.old spot.now) }
{
    for lack in spot.lacks.as_slice() {
        put_kind(alloc, kinds, lack)?;
    }
    Ok(())
}

/// Puts the kinds of what spots lack behind those that are known.
fn put_all(alloc: Global, kinds: &mut NameTable, spots: &[Spot]) -> Result<(), AllocError>
    ensures { OnOk result (kinds.new ≡ fold with_kinds kinds.old spots.now) }
{
    for spot in spots {
        put_kinds(alloc, kinds, spot)?;
    }
    Ok(())
}

/// A key of hashes that is made of all names. It bears on how fast a kind is found, and on no answer.
fn hash_key(spots: &[Spot]) -> Keyed {
    let mut read = DefaultHasher::new();
    for spot in spots {
        for lack in spot.lacks.as_slice() {
            read.write(lack.what.bytes());
        }
    }
    Keyed::after(&read)
}

/// The kinds of what spots lack, in the order in which they come first.
pub(crate) fn kinds_of(alloc: Global, spots: &[Spot]) -> Result<NameTable, AllocError>
    ensures { IfOk result (λ kinds. kinds ≡ kinds_of spots.now) }
{
    let mut kinds = NameTable::keyed(alloc, hash_key(spots));
    put_all(alloc, &mut kinds, spots)?;
    Ok(kinds)
}

/// The place of the kind of a lack, or 0 where it is not known.
pub(crate) fn kind_of(alloc: Global, kinds: &NameTable, lack: &Lack) -> Result<usize, AllocError>
    ensures { IfOk result (λ kind. kind ≡ kind_of kinds.now lack.now) }
{
    let key = key_of(alloc, lack)?;
    Ok(kinds.place_of(key.as_slice()).unwrap_or(0))
}
