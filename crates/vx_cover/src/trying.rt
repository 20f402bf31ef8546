//! What a line meets of the targets behind its first one: each in order that still can be met, as long as trying isn't in vain too often.

ghost use Rattle.std.specs.Prelude.{◌≢◌, IfOk, IfSome};
ghost use Rattle.vx_space.specs.Sets.{Extends, IsKnown};
ghost use Rattle.vx_bdd_tools.specs.Members.{IsMember};
ghost use Rattle.vx_cover.specs.Blocks.{AreBlocks, IsBlock};
ghost use Rattle.vx_cover.specs.Targets.{AreOpen, IsPart};

use crate::blocks::Block;
use crate::target::Target;
use std::alloc::{AllocError, Global};
use vx_bdd_tools::one_of;
use vx_space::{Config, Space, SpaceFault};
use vx_work::{Work, and_within};

/// How many sets the lines may make together while more targets are looked for that a line can meet; behind that each line takes
/// a configuration of its first target alone.
const MOST_SETS: u64 = 1_000_000;

/// How often the lines may try a set in vain, together.
const MOST_MISSES: u64 = 1 << 18;

/// How often each line may, also when the lines before it have tried as often as they may.
const LINE_MISSES: u64 = 4;

/// How much work the lines may be together, and the trial of one set at most.
const MOST_WORK: u64 = 4_000_000;

const MOST_SHARE: u64 = 1 << 18;

/// How much more is tried.
#[derive(Clone, Copy)]
pub struct Patience {
    /// The most sets that the space may have.
    sets: u64,
    misses: u64,
    work: Work,
}

/// What is tried before the first line.
pub(crate) fn full_patience<S: Space>(space: &S) -> Patience {
    Patience {
        sets: space.count().saturating_add(MOST_SETS),
        misses: MOST_MISSES,
        work: Work::of(MOST_WORK),
    }
}

/// What one more line may try.
fn of_line(patience: Patience) -> Patience {
    Patience {
        misses: patience.misses.max(LINE_MISSES),
        ..patience
    }
}

fn is_spent<S: Space>(space: &S, patience: Patience) -> bool {
    patience.misses == 0 || space.count() > patience.sets
}

/// Counts a set that was tried in vain.
fn miss(patience: &mut Patience) {
    patience.misses = patience.misses.saturating_sub(1);
}

/// The part of a set that is in another one too; none where there is no such part, or where it would be too much work.
fn part_of<S: Space>(
    alloc: Global,
    space: &mut S,
    met: S::Id,
    set: S::Id,
    patience: &mut Patience,
) -> Result<Option<S::Id>, SpaceFault>
    requires known { IsKnown (S.sets space.old) met }
    requires other { IsKnown (S.sets space.old) set }
    ensures extends { Extends (S.sets space.old) (S.sets space.new) }
    ensures part { IfOk result (λ r. IfSome r (IsPart (S.sets space.old) (S.sets space.new) met)) }
{
    let mut work = patience.work.share(MOST_SHARE);
    let found = and_within(alloc, space, &mut work, met, set)?;
    patience.work.put_back(work);
    let Some(both) = found else {
        miss(patience);
        return Ok(None);
    };
    if space.is_never(both) {
        miss(patience);
        return Ok(None);
    }
    Ok(Some(both))
}

/// The same, or all of the set.
fn met_with_one<S: Space>(
    alloc: Global,
    space: &mut S,
    met: S::Id,
    set: S::Id,
    patience: &mut Patience,
) -> Result<S::Id, SpaceFault>
    requires known { IsKnown (S.sets space.old) met }
    requires some { met ≢ (S.sets space.old).never }
    requires other { IsKnown (S.sets space.old) set }
    ensures extends { Extends (S.sets space.old) (S.sets space.new) }
    ensures part { IfOk result (IsPart (S.sets space.old) (S.sets space.new) met) }
{
    match part_of(alloc, space, met, set, patience)? {
        Some(part) => Ok(part),
        None => Ok(met),
    }
}

/// A part of a set, in which targets hold: each in order that still can.
fn met_with<S: Space>(
    alloc: Global,
    space: &mut S,
    first: S::Id,
    targets: &[Target<S::Id>],
    patience: &mut Patience,
) -> Result<S::Id, SpaceFault>
    requires known { IsKnown (S.sets space.old) first }
    requires some { first ≢ (S.sets space.old).never }
    requires targets { AreOpen (S.sets space.old) targets.now }
    ensures extends { Extends (S.sets space.old) (S.sets space.new) }
    ensures part { IfOk result (IsPart (S.sets space.old) (S.sets space.new) first) }
{
    let mut met = first;
    for target in targets {
        if is_spent(space, *patience) {
            return Ok(met);
        }
        met = met_with_one(alloc, space, met, target.set, patience)?;
    }
    Ok(met)
}

/// The same for the targets of a block, which are asked where its set can be met.
fn met_with_block<S: Space>(
    alloc: Global,
    space: &mut S,
    first: S::Id,
    block: &Block<S::Id>,
    patience: &mut Patience,
) -> Result<S::Id, SpaceFault>
    requires known { IsKnown (S.sets space.old) first }
    requires some { first ≢ (S.sets space.old).never }
    requires block { IsBlock (S.sets space.old) block.now }
    ensures extends { Extends (S.sets space.old) (S.sets space.new) }
    ensures part { IfOk result (IsPart (S.sets space.old) (S.sets space.new) first) }
{
    if block.targets.is_empty() {
        return Ok(first);
    }
    if part_of(alloc, space, first, block.whole, patience)?.is_none() {
        return Ok(first);
    }
    met_with(alloc, space, first, block.targets.as_slice(), patience)
}

/// The same for the targets of blocks.
fn met_with_all<S: Space>(
    alloc: Global,
    space: &mut S,
    first: S::Id,
    blocks: &[Block<S::Id>],
    patience: &mut Patience,
) -> Result<S::Id, SpaceFault>
    requires known { IsKnown (S.sets space.old) first }
    requires some { first ≢ (S.sets space.old).never }
    requires blocks { AreBlocks (S.sets space.old) blocks.now }
    ensures extends { Extends (S.sets space.old) (S.sets space.new) }
    ensures part { IfOk result (IsPart (S.sets space.old) (S.sets space.new) first) }
{
    let mut met = first;
    for block in blocks {
        if is_spent(space, *patience) {
            return Ok(met);
        }
        met = met_with_block(alloc, space, met, block, patience)?;
    }
    Ok(met)
}

/// A configuration of a set that isn't never.
fn member<S: Space>(alloc: Global, space: &S, set: S::Id) -> Result<Config, AllocError>
    requires known { IsKnown (S.sets space.now) set }
    requires some { set ≢ (S.sets space.now).never }
    ensures { IfOk result (IsMember (S.sets space.now) set) }
{
    let Some(c) = one_of(alloc, space, set)? else {
        unreachable!()
    };
    Ok(c)
}

/// A configuration of a set, at which as many targets hold as are found.
pub fn configuration<S: Space>(
    alloc: Global,
    space: &mut S,
    first: S::Id,
    blocks: &[Block<S::Id>],
    patience: &mut Patience,
) -> Result<Config, SpaceFault>
    requires known { IsKnown (S.sets space.old) first }
    requires some { first ≢ (S.sets space.old).never }
    requires blocks { AreBlocks (S.sets space.old) blocks.now }
    ensures extends { Extends (S.sets space.old) (S.sets space.new) }
    ensures member { IfOk result (IsMember (S.sets space.old) first) }
{
    *patience = of_line(*patience);
    let met = met_with_all(alloc, space, first, blocks, patience)?;
    let c = member(alloc, space, met)?;
    Ok(c)
}
