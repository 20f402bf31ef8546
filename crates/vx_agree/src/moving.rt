//! Configurations moved along the first output, piece by piece.
//!
//! Of the second output is kept at which place each configuration stands that has written the same so far. A place fixes what is left, so
//! configurations with one place are one entry, and there are never more entries than bytes. A configuration whose outputs differ
//! has no place any more.

ghost use Rattle.std.specs.Prelude.{◌≡◌, ◌<◌, true, List, Bool, IfOk, IfSome, OnOk, length};
ghost use Rattle.vx_bdd_tools.specs.Listing.{AreSetsOf};
ghost use Rattle.vx_space.specs.Sets.{Extends, IsKnown};
ghost use Rattle.vx_agree.specs.Places.{AreKnownPlaces};
ghost use Rattle.vx_agree.specs.Moving.{AreMoved, GoesAlong, HaveMoved, IsMoved, IsSlid, SaysTheSame};

use crate::reached::{Reached, put};
use crate::taking::{place_behind, take_text};
use crate::texts::{behind, common_from};
use std::alloc::Global;
use vx_bdd_tools::set_of;
use vx_report::{Piece, Report};
use vx_space::{Space, SpaceFault};

/// The first place from one on whose piece a configuration of a condition writes: what is left there is the same.
fn slid<S: Space>(
    space: &mut S,
    other: &Report,
    sets: &[S::Id],
    piece: usize,
    byte: usize,
    condition: S::Id,
) -> Result<(usize, usize), SpaceFault>
    requires sets { AreSetsOf (S.sets space.old) other.now.nodes sets.now }
    requires known { IsKnown (S.sets space.old) condition }
    ensures extends { Extends (S.sets space.old) (S.sets space.new) }
    ensures same { IfOk result (λ place. SaysTheSame (S.sets space.old) other.now condition piece byte place.0 place.1) }
{
    if space.is_never(condition) {
        return Ok((piece, byte));
    }
    let pieces = other.pieces.as_slice();
    let mut from = byte;
    for index in piece..pieces.len() {
        let set = set_of(space, sets, pieces[index].node);
        let inside = space.and(condition, set)?;
        if !space.is_never(inside) {
            return Ok((index, from));
        }
        from = 0;
    }
    Ok((pieces.len(), 0))
}

/// Whether two sets are seen to hold the same configurations of a condition: they are one set, or have one part inside it, which isn't
/// empty.
fn hold_the_same<S: Space>(
    space: &mut S,
    condition: S::Id,
    one: S::Id,
    other: S::Id,
) -> Result<bool, SpaceFault>
    requires condition { IsKnown (S.sets space.old) condition }
    requires one { IsKnown (S.sets space.old) one }
    requires other { IsKnown (S.sets space.old) other }
    ensures extends { Extends (S.sets space.old) (S.sets space.new) }
    ensures same { IfOk result (λ told. told ≡ true → (c : List Bool) → (S.sets space.old).test condition c ≡ true → (S.sets space.old).test one c ≡ (S.sets space.old).test other c) }
{
    if one == other {
        return Ok(true);
    }
    let inside = space.and(condition, one)?;
    let other_inside = space.and(condition, other)?;
    if inside == other_inside {
        return Ok(!space.is_never(inside));
    }
    Ok(false)
}

/// The place to which the configurations of an entry come by a piece of the first output, where they are seen to go on together: just
/// those that write it write each piece of the second output from which its text is taken. Nothing is said where they aren't.
fn gone_along<S: Space>(
    space: &mut S,
    other: &Report,
    sets: &[S::Id],
    entry: Reached<S::Id>,
    front: &Piece,
    set: S::Id,
) -> Result<Option<(usize, usize)>, SpaceFault>
    requires sets { AreSetsOf (S.sets space.old) other.now.nodes sets.now }
    requires entry { IsKnown (S.sets space.old) entry.condition }
    requires set { IsKnown (S.sets space.old) set }
    ensures extends { Extends (S.sets space.old) (S.sets space.new) }
    ensures along { IfOk result (λ place. IfSome place (λ p. GoesAlong (S.sets space.old) other.now entry front.now set p.0 p.1)) }
{
    let pieces = other.pieces.as_slice();
    let text = front.text.bytes();
    let mut taken = 0;
    let mut from = entry.byte;
    for index in entry.piece..pieces.len() {
        let there = set_of(space, sets, pieces[index].node);
        if !hold_the_same(space, entry.condition, set, there)? {
            return Ok(None);
        }
        let same = common_from(front, taken, &pieces[index], from);
        taken += same;
        if taken == text.len() {
            return Ok(Some(place_behind(index, &pieces[index], from, same)));
        }
        if same != behind(pieces[index].text.bytes(), from).len() {
            return Ok(None);
        }
        from = 0;
    }
    Ok(None)
}

/// The configurations that write the piece at a place; none of them behind the last piece.
fn writers<S: Space>(space: &S, other: &Report, sets: &[S::Id], piece: usize) -> S::Id
    requires { AreSetsOf (S.sets space.now) other.now.nodes sets.now }
    ensures { IsKnown (S.sets space.now) result }
{
    match other.pieces.as_slice().get(piece) {
        Some(there) => set_of(space, sets, there.node),
        None => space.never(),
    }
}

/// Adds configurations that stand at a place: those that write the piece there stay, and the others go on to a piece that one of them
/// writes, so that whoever waits at a place keeps no one else there.
fn put_slid<S: Space>(
    space: &mut S,
    other: &Report,
    sets: &[S::Id],
    piece: usize,
    byte: usize,
    condition: S::Id,
    new: &mut Vec<Reached<S::Id>>,
) -> Result<(), SpaceFault>
    requires sets { AreSetsOf (S.sets space.old) other.now.nodes sets.now }
    requires known { IsKnown (S.sets space.old) condition }
    requires places { AreKnownPlaces (S.sets space.old) new.old.items }
    ensures extends { Extends (S.sets space.old) (S.sets space.new) }
    ensures put { OnOk result (IsSlid (S.sets space.old) (S.sets space.new) other.now piece byte condition new.old.items new.new.items) }
{
    let there = writers(space, other, sets, piece);
    let here = space.and(condition, there)?;
    let beyond = space.minus(condition, there)?;
    put(space, new, piece, byte, here)?;
    let (later, from) = slid(space, other, sets, piece, byte, beyond)?;
    put(space, new, later, from, beyond)
}

/// Moves the configurations of an entry by a piece with a text, which those of its set write: these take the text, and of the others only
/// those that write the piece at their place stay there.
fn move_parts<S: Space>(
    alloc: Global,
    space: &mut S,
    other: &Report,
    sets: &[S::Id],
    entry: Reached<S::Id>,
    front: &Piece,
    set: S::Id,
    new: &mut Vec<Reached<S::Id>>,
) -> Result<(), SpaceFault>
    requires sets { AreSetsOf (S.sets space.old) other.now.nodes sets.now }
    requires entry { IsKnown (S.sets space.old) entry.condition }
    requires set { IsKnown (S.sets space.old) set }
    requires some { 0 < length front.now.text }
    requires places { AreKnownPlaces (S.sets space.old) new.old.items }
    ensures extends { Extends (S.sets space.old) (S.sets space.new) }
    ensures moved { OnOk result (IsMoved (S.sets space.old) (S.sets space.new) other.now entry front.now set new.old.items new.new.items) }
{
    let inside = space.and(entry.condition, set)?;
    let outside = space.minus(entry.condition, set)?;
    take_text(
        alloc,
        space,
        other,
        sets,
        entry.piece,
        entry.byte,
        inside,
        front,
        new,
    )?;
    put_slid(space, other, sets, entry.piece, entry.byte, outside, new)
}

/// Moves the configurations of an entry by a piece with a text. Where they are seen to go on together they stay one entry.
fn move_entry<S: Space>(
    alloc: Global,
    space: &mut S,
    other: &Report,
    sets: &[S::Id],
    entry: Reached<S::Id>,
    front: &Piece,
    set: S::Id,
    new: &mut Vec<Reached<S::Id>>,
) -> Result<(), SpaceFault>
    requires sets { AreSetsOf (S.sets space.old) other.now.nodes sets.now }
    requires entry { IsKnown (S.sets space.old) entry.condition }
    requires set { IsKnown (S.sets space.old) set }
    requires some { 0 < length front.now.text }
    requires places { AreKnownPlaces (S.sets space.old) new.old.items }
    ensures extends { Extends (S.sets space.old) (S.sets space.new) }
    ensures moved { OnOk result (IsMoved (S.sets space.old) (S.sets space.new) other.now entry front.now set new.old.items new.new.items) }
{
    match gone_along(space, other, sets, entry, front, set)? {
        Some((piece, byte)) => put(space, new, piece, byte, entry.condition),
        None => move_parts(alloc, space, other, sets, entry, front, set, new),
    }
}

/// Moves all entries by a piece with a text.
fn move_all<S: Space>(
    alloc: Global,
    space: &mut S,
    other: &Report,
    sets: &[S::Id],
    reached: &[Reached<S::Id>],
    front: &Piece,
    set: S::Id,
) -> Result<Vec<Reached<S::Id>>, SpaceFault>
    requires sets { AreSetsOf (S.sets space.old) other.now.nodes sets.now }
    requires places { AreKnownPlaces (S.sets space.old) reached.now }
    requires set { IsKnown (S.sets space.old) set }
    requires some { 0 < length front.now.text }
    ensures extends { Extends (S.sets space.old) (S.sets space.new) }
    ensures moved { IfOk result (λ new. AreMoved (S.sets space.old) (S.sets space.new) other.now front.now set reached.now new.items) }
{
    let mut new = Vec::new(alloc);
    for entry in reached {
        move_entry(alloc, space, other, sets, *entry, front, set, &mut new)?;
    }
    Ok(new)
}

/// Moves all entries by a piece of the first report.
pub fn moved<S: Space>(
    alloc: Global,
    space: &mut S,
    one: &Report,
    one_sets: &[S::Id],
    other: &Report,
    sets: &[S::Id],
    reached: Vec<Reached<S::Id>>,
    front: &Piece,
) -> Result<Vec<Reached<S::Id>>, SpaceFault>
    requires one { AreSetsOf (S.sets space.old) one.now.nodes one_sets.now }
    requires sets { AreSetsOf (S.sets space.old) other.now.nodes sets.now }
    requires places { AreKnownPlaces (S.sets space.old) reached.items }
    ensures extends { Extends (S.sets space.old) (S.sets space.new) }
    ensures moved { IfOk result (λ new. HaveMoved (S.sets space.old) (S.sets space.new) one.now other.now front.now reached.items new.items) }
{
    if front.text.bytes().is_empty() {
        return Ok(reached);
    }
    let set = set_of(space, one_sets, front.node);
    move_all(alloc, space, other, sets, reached.as_slice(), front, set)
}
