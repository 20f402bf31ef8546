//! What is to be covered: the pieces and ends of a report that some configuration has.

ghost use Rattle.std.specs.Prelude.{◌≡◌, [], OnOk, length};
ghost use Rattle.vx_space.specs.Sets.{Extends, IsKnown, IsSet};
ghost use Rattle.vx_bdd_tools.specs.Listing.{AreSetsOf};
ghost use Rattle.vx_cover.specs.Covers.{has_end, has_this_end, has_this_piece};
ghost use Rattle.vx_cover.specs.Scopes.{AreFirstEnds};
ghost use Rattle.vx_cover.specs.Targets.{AreFirst, IsPushed};

use crate::scope::first_ends;
use std::alloc::{AllocError, Global};
use vx_bdd_tools::set_of;
use vx_report::Report;
use vx_space::{Space, SpaceFault};

/// A piece or an end by its number, from 1 on, and the configurations that have it.
#[derive(Clone, Copy)]
pub struct Target<I> {
    pub index: u64,
    pub set: I,
}

/// Puts a target, unless no configuration has it.
fn push_target<S: Space>(
    space: &S,
    targets: &mut Vec<Target<S::Id>>,
    index: u64,
    set: S::Id,
) -> Result<(), AllocError>
    requires { IsKnown (S.sets space.now) set }
    ensures { OnOk result (IsPushed (S.sets space.now) index set targets.old.items targets.new.items) }
{
    if space.is_never(set) {
        return Ok(());
    }
    targets.push(Target { index, set })?;
    Ok(())
}

/// Puts the ends of a report, each with its configurations.
fn put_ends<S: Space>(
    space: &S,
    targets: &mut Vec<Target<S::Id>>,
    report: &Report,
    firsts: &[S::Id],
) -> Result<(), AllocError>
    requires firsts { AreFirstEnds (S.sets space.now) report.now firsts.now }
    requires none { targets.old.items ≡ [] }
    ensures { OnOk result (AreFirst (S.sets space.now) (has_this_end report.now) (length report.now.ends) targets.new.items) }
{
    for place in 0..report.ends.len() {
        push_target(space, targets, place as u64 + 1, firsts[place])?;
    }
    Ok(())
}

/// Puts the ends of a report, each with the configurations whose first end it is.
pub fn push_ends<S: Space>(
    alloc: Global,
    space: &mut S,
    targets: &mut Vec<Target<S::Id>>,
    report: &Report,
    sets: &[S::Id],
) -> Result<(), SpaceFault>
    requires sets { AreSetsOf (S.sets space.old) report.now.nodes sets.now }
    requires none { targets.old.items ≡ [] }
    ensures extends { Extends (S.sets space.old) (S.sets space.new) }
    ensures targets { OnOk result (AreFirst (S.sets space.new) (has_this_end report.now) (length report.now.ends) targets.new.items) }
{
    let firsts = first_ends(alloc, space, report, sets)?;
    put_ends(space, targets, report, firsts.as_slice())?;
    Ok(())
}

/// Puts the pieces of a report, each with the configurations that have it and an end.
pub fn push_pieces<S: Space>(
    space: &mut S,
    targets: &mut Vec<Target<S::Id>>,
    report: &Report,
    sets: &[S::Id],
    ended: S::Id,
) -> Result<(), SpaceFault>
    requires sets { AreSetsOf (S.sets space.old) report.now.nodes sets.now }
    requires ended { IsSet (S.sets space.old) ended (has_end report.now) }
    requires none { targets.old.items ≡ [] }
    ensures extends { Extends (S.sets space.old) (S.sets space.new) }
    ensures targets { OnOk result (AreFirst (S.sets space.new) (has_this_piece report.now) (length report.now.pieces) targets.new.items) }
{
    for (place, piece) in report.pieces.as_slice().iter().enumerate() {
        let set = set_of(space, sets, piece.node);
        let part = space.and(ended, set)?;
        push_target(space, targets, place as u64 + 1, part)?;
    }
    Ok(())
}
