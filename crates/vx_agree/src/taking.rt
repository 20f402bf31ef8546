//! A text of the first output, taken from the second one.
//!
//! Configurations that write the text stand at a place of the second output. They go on through its pieces: each takes from the
//! pieces that it writes as many bytes of the text as are there. Who has taken all of them has come to a new place. Between two pieces
//! wait those that have taken a part, one entry for each number of bytes, so there are never more entries than bytes.

ghost use Rattle.std.specs.Prelude.{◌<◌, ◌≤◌, ◌^◌, IfOk, OnOk, drop, length};
ghost use Rattle.vx_bdd_tools.specs.Listing.{AreSetsOf};
ghost use Rattle.vx_space.specs.Sets.{Extends, IsKnown};
ghost use Rattle.vx_agree.specs.Places.{AreKnownPlaces};
ghost use Rattle.vx_agree.specs.Taking.{HasTaken, IsBegun, IsBehind, IsTaken, Takes, TakesAll};

use crate::reached::{Reached, put};
use crate::texts::{behind, common_from};
use std::alloc::Global;
use vx_bdd_tools::set_of;
use vx_report::{Piece, Report};
use vx_space::{Space, SpaceFault};

/// The place behind so many bytes from a byte of a piece on: the start of the next piece, where nothing is left of it.
pub fn place_behind(index: usize, piece: &Piece, byte: usize, count: usize) -> (usize, usize)
    requires index { index < 2 ^ 63 }
    requires count { count ≤ length (drop byte piece.now.text) }
    ensures { IsBehind index piece.now byte count result.0 result.1 }
{
    if count == behind(piece.text.bytes(), byte).len() {
        (index + 1, 0)
    } else {
        (index, byte + count)
    }
}

/// Takes from a piece that the configurations write what is there of a text, of which they have taken so many bytes. They come to a
/// new place, or wait behind the piece, or write something else and have no place any more.
fn take_bytes<S: Space>(
    space: &mut S,
    index: usize,
    piece: &Piece,
    byte: usize,
    front: &Piece,
    count: usize,
    condition: S::Id,
    new: &mut Vec<Reached<S::Id>>,
    waiting: &mut Vec<Reached<S::Id>>,
) -> Result<(), SpaceFault>
    requires index { index < 2 ^ 63 }
    requires known { IsKnown (S.sets space.old) condition }
    requires places { AreKnownPlaces (S.sets space.old) new.old.items }
    requires waiting { AreKnownPlaces (S.sets space.old) waiting.old.items }
    ensures extends { Extends (S.sets space.old) (S.sets space.new) }
    ensures taken { OnOk result (HasTaken (S.sets space.old) (S.sets space.new) index piece.now byte front.now count condition new.old.items new.new.items waiting.old.items waiting.new.items) }
{
    let same = common_from(front, count, piece, byte);
    if same == behind(front.text.bytes(), count).len() {
        let (next, from) = place_behind(index, piece, byte, same);
        return put(space, new, next, from, condition);
    }
    if same == behind(piece.text.bytes(), byte).len() {
        return put(space, waiting, index + 1, count + same, condition);
    }
    Ok(())
}

/// Takes from a piece for the configurations of an entry. Those that don't write the piece wait behind it.
fn take_part<S: Space>(
    space: &mut S,
    index: usize,
    piece: &Piece,
    set: S::Id,
    byte: usize,
    front: &Piece,
    entry: Reached<S::Id>,
    new: &mut Vec<Reached<S::Id>>,
    waiting: &mut Vec<Reached<S::Id>>,
) -> Result<(), SpaceFault>
    requires index { index < 2 ^ 63 }
    requires set { IsKnown (S.sets space.old) set }
    requires entry { IsKnown (S.sets space.old) entry.condition }
    requires places { AreKnownPlaces (S.sets space.old) new.old.items }
    requires waiting { AreKnownPlaces (S.sets space.old) waiting.old.items }
    ensures extends { Extends (S.sets space.old) (S.sets space.new) }
    ensures takes { OnOk result (Takes (S.sets space.old) (S.sets space.new) index piece.now set byte front.now entry new.old.items new.new.items waiting.old.items waiting.new.items) }
{
    let inside = space.and(entry.condition, set)?;
    let outside = space.minus(entry.condition, set)?;
    take_bytes(
        space, index, piece, byte, front, entry.byte, inside, new, waiting,
    )?;
    put(space, waiting, index + 1, entry.byte, outside)
}

/// Takes from a piece for all entries that wait before it, and gives those that wait behind it.
fn take_from_piece<S: Space>(
    alloc: Global,
    space: &mut S,
    index: usize,
    piece: &Piece,
    set: S::Id,
    byte: usize,
    front: &Piece,
    entries: &[Reached<S::Id>],
    new: &mut Vec<Reached<S::Id>>,
) -> Result<Vec<Reached<S::Id>>, SpaceFault>
    requires index { index < 2 ^ 63 }
    requires set { IsKnown (S.sets space.old) set }
    requires entries { AreKnownPlaces (S.sets space.old) entries.now }
    requires places { AreKnownPlaces (S.sets space.old) new.old.items }
    ensures extends { Extends (S.sets space.old) (S.sets space.new) }
    ensures takes { IfOk result (λ after. TakesAll (S.sets space.old) (S.sets space.new) index piece.now set byte front.now entries.now new.old.items new.new.items after.items) }
{
    let mut waiting = Vec::new(alloc);
    for entry in entries {
        take_part(
            space,
            index,
            piece,
            set,
            byte,
            front,
            *entry,
            new,
            &mut waiting,
        )?;
    }
    Ok(waiting)
}

/// The entry of configurations that have taken nothing yet.
fn begun<S: Space>(
    alloc: Global,
    space: &S,
    piece: usize,
    condition: S::Id,
) -> Result<Vec<Reached<S::Id>>, SpaceFault>
    requires { IsKnown (S.sets space.now) condition }
    ensures { IfOk result (λ entries. IsBegun (S.sets space.now) piece condition entries.items) }
{
    let mut entries = Vec::new(alloc);
    if space.is_never(condition) {
        return Ok(entries);
    }
    entries.push(Reached {
        piece,
        byte: 0,
        condition,
    })?;
    Ok(entries)
}

/// Takes a text that is not empty from the second output, for configurations that stand at a place of it and write the text in the
/// first one. Those that write something else there have no place any more.
pub fn take_text<S: Space>(
    alloc: Global,
    space: &mut S,
    other: &Report,
    sets: &[S::Id],
    piece: usize,
    byte: usize,
    condition: S::Id,
    front: &Piece,
    new: &mut Vec<Reached<S::Id>>,
) -> Result<(), SpaceFault>
    requires sets { AreSetsOf (S.sets space.old) other.now.nodes sets.now }
    requires known { IsKnown (S.sets space.old) condition }
    requires some { 0 < length front.now.text }
    requires places { AreKnownPlaces (S.sets space.old) new.old.items }
    ensures extends { Extends (S.sets space.old) (S.sets space.new) }
    ensures taken { OnOk result (IsTaken (S.sets space.old) (S.sets space.new) other.now piece byte condition front.now new.old.items new.new.items) }
{
    let pieces = other.pieces.as_slice();
    let mut waiting = begun(alloc, space, piece, condition)?;
    let mut from = byte;
    for index in piece..pieces.len() {
        if waiting.is_empty() {
            return Ok(());
        }
        let set = set_of(space, sets, pieces[index].node);
        waiting = take_from_piece(
            alloc,
            space,
            index,
            &pieces[index],
            set,
            from,
            front,
            waiting.as_slice(),
            new,
        )?;
        from = 0;
    }
    Ok(())
}
