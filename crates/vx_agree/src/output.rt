//! The configurations at which two reports have equal output.

ghost use Rattle.std.specs.Prelude.{◌&&◌, IfOk, [], drop};
ghost use Rattle.vx_bdd_tools.specs.Listing.{AreSetsOf};
ghost use Rattle.vx_space.specs.Sets.{Extends, IsKnown, IsSet};
ghost use Rattle.vx_agree.specs.Equal.{are_equal};
ghost use Rattle.vx_agree.specs.Left.{written};
ghost use Rattle.vx_agree.specs.Places.{AreKnownPlaces};
ghost use Rattle.vx_agree.specs.Moving.{AreBehind, IsAllSaid, IsSameOutput, IsUnsaid};

use crate::moving::moved;
use crate::reached::Reached;
use crate::texts::behind;
use std::alloc::Global;
use vx_bdd_tools::set_of;
use vx_report::{Piece, Report};
use vx_space::{Space, SpaceFault};

/// The places behind one output in another, for the configurations of a set.
fn places_behind<S: Space>(
    alloc: Global,
    space: &mut S,
    one: &Report,
    one_sets: &[S::Id],
    other: &Report,
    sets: &[S::Id],
    start: S::Id,
) -> Result<Vec<Reached<S::Id>>, SpaceFault>
    requires one { AreSetsOf (S.sets space.old) one.now.nodes one_sets.now }
    requires sets { AreSetsOf (S.sets space.old) other.now.nodes sets.now }
    requires start { IsKnown (S.sets space.old) start }
    ensures extends { Extends (S.sets space.old) (S.sets space.new) }
    ensures behind { IfOk result (λ reached. AreBehind (S.sets space.old) (S.sets space.new) one.now other.now start reached.items) }
{
    let mut reached = Vec::new(alloc);
    reached.push(Reached {
        piece: 0,
        byte: 0,
        condition: start,
    })?;
    for piece in one.pieces.as_slice() {
        reached = moved(alloc, space, one, one_sets, other, sets, reached, piece)?;
    }
    Ok(reached)
}

/// The configurations of a set that write nothing in a piece from a byte on.
fn silent<S: Space>(
    space: &mut S,
    other: &Report,
    sets: &[S::Id],
    piece: &Piece,
    byte: usize,
    rest: S::Id,
) -> Result<S::Id, SpaceFault>
    requires sets { AreSetsOf (S.sets space.old) other.now.nodes sets.now }
    requires rest { IsKnown (S.sets space.old) rest }
    ensures extends { Extends (S.sets space.old) (S.sets space.new) }
    ensures silent { IfOk result (λ id. IsSet (S.sets space.new) id (λ c. (S.sets space.old).test rest c && are_equal [] (drop byte (written other.now c piece.now)))) }
{
    if behind(piece.text.bytes(), byte).is_empty() {
        return Ok(rest);
    }
    let set = set_of(space, sets, piece.node);
    space.minus(rest, set)
}

/// The configurations of a condition that write nothing from a place on.
fn unsaid<S: Space>(
    space: &mut S,
    other: &Report,
    sets: &[S::Id],
    piece: usize,
    byte: usize,
    condition: S::Id,
) -> Result<S::Id, SpaceFault>
    requires sets { AreSetsOf (S.sets space.old) other.now.nodes sets.now }
    requires known { IsKnown (S.sets space.old) condition }
    ensures extends { Extends (S.sets space.old) (S.sets space.new) }
    ensures unsaid { IfOk result (IsUnsaid (S.sets space.old) (S.sets space.new) other.now piece byte condition) }
{
    let pieces = other.pieces.as_slice();
    let mut rest = condition;
    let mut from = byte;
    for index in piece..pieces.len() {
        if space.is_never(rest) {
            return Ok(rest);
        }
        rest = silent(space, other, sets, &pieces[index], from, rest)?;
        from = 0;
    }
    Ok(rest)
}

/// The configurations that stand at a place from which on they write nothing.
fn all_said<S: Space>(
    space: &mut S,
    other: &Report,
    sets: &[S::Id],
    reached: &[Reached<S::Id>],
) -> Result<S::Id, SpaceFault>
    requires sets { AreSetsOf (S.sets space.old) other.now.nodes sets.now }
    requires places { AreKnownPlaces (S.sets space.old) reached.now }
    ensures extends { Extends (S.sets space.old) (S.sets space.new) }
    ensures said { IfOk result (IsAllSaid (S.sets space.old) (S.sets space.new) other.now reached.now) }
{
    let mut all = space.never();
    for entry in reached {
        let rest = unsaid(space, other, sets, entry.piece, entry.byte, entry.condition)?;
        all = space.or(all, rest)?;
    }
    Ok(all)
}

/// Configurations at which two reports have equal output, among them all of a set to begin with.
pub fn same_output<S: Space>(
    alloc: Global,
    space: &mut S,
    one: &Report,
    one_sets: &[S::Id],
    other: &Report,
    sets: &[S::Id],
    start: S::Id,
) -> Result<S::Id, SpaceFault>
    requires one { AreSetsOf (S.sets space.old) one.now.nodes one_sets.now }
    requires sets { AreSetsOf (S.sets space.old) other.now.nodes sets.now }
    requires start { IsKnown (S.sets space.old) start }
    ensures extends { Extends (S.sets space.old) (S.sets space.new) }
    ensures same { IfOk result (IsSameOutput (S.sets space.old) (S.sets space.new) one.now other.now start) }
{
    let reached = places_behind(alloc, space, one, one_sets, other, sets, start)?;
    all_said(space, other, sets, reached.as_slice())
}
