//! Covering by greed: from what isn't covered yet the first, met with as much of the rest as stays possible.

ghost use Rattle.std.specs.Prelude.{◌≡◌, ◌≢◌, IfOk, OnOk, length};
ghost use Rattle.vx_space.specs.Sets.{Extends, IsKnown};
ghost use Rattle.vx_bdd_tools.specs.Listing.{AreSetsOf};
ghost use Rattle.vx_report.specs.declared.report.Report.{Report};
ghost use Rattle.vx_report_reader.specs.Lawful.{IsLawful};
ghost use Rattle.vx_cover.specs.Blocks.{AreBlocks, flat};
ghost use Rattle.vx_cover.specs.Covers.{IsCover};
ghost use Rattle.vx_cover.specs.Steps.{IsOneMore, IsStart, IsTaken};
ghost use Rattle.vx_cover.specs.Targets.{first_set};

use crate::blocks::{blocks_of, first_of, meet};
use crate::scope::ended;
use crate::target::{push_ends, push_pieces};
use crate::tries::{Covering, Try};
use crate::trying::{Patience, configuration, full_patience};
use std::alloc::Global;
use vx_bdd_tools::sets_of;
use vx_list::Items;
use vx_report::Report;
use vx_space::{Config, Space, SpaceFault};

/// The set of the first target, ends before pieces.
fn first_set<I: Copy>(covering: &Covering<I>) -> Option<I>
    ensures { result ≡ first_set (flat covering.now.ends.items) (flat covering.now.pieces.items) }
{
    let end = first_of(covering.ends.as_slice());
    if end.is_some() {
        return end;
    }
    first_of(covering.pieces.as_slice())
}

/// A line.
fn line_of(configuration: Config, ends: Vec<u64>, pieces: Vec<u64>) -> Try
    ensures configuration { result.configuration ≡ configuration }
    ensures ends { result.ends ≡ ends.items }
    ensures pieces { result.pieces ≡ pieces.items }
{
    Try {
        configuration,
        ends: Items::of(ends),
        pieces: Items::of(pieces),
    }
}

/// Takes what a configuration meets out of what is still to be covered; the answer is its line.
fn take_line<S: Space>(
    alloc: Global,
    space: &S,
    covering: &mut Covering<S::Id>,
    configuration: Config,
) -> Result<Try, SpaceFault>
    requires ends { AreBlocks (S.sets space.now) covering.old.ends.items }
    requires pieces { AreBlocks (S.sets space.now) covering.old.pieces.items }
    ensures line { IfOk result (λ line. IsTaken (S.sets space.now) configuration line covering.old covering.new) }
{
    let ends = meet(alloc, space, &mut covering.ends, &configuration)?;
    let pieces = meet(alloc, space, &mut covering.pieces, &configuration)?;
    Ok(line_of(configuration, ends, pieces))
}

/// One more line: a configuration of the set of the first target, in which as many others hold as are found. No two ends have a
/// configuration in common, so pieces alone are looked for.
fn cover_more<S: Space>(
    alloc: Global,
    space: &mut S,
    covering: &mut Covering<S::Id>,
    first: S::Id,
    patience: &mut Patience,
) -> Result<(), SpaceFault>
    requires known { IsKnown (S.sets space.old) first }
    requires some { first ≢ (S.sets space.old).never }
    requires ends { AreBlocks (S.sets space.old) covering.old.ends.items }
    requires pieces { AreBlocks (S.sets space.old) covering.old.pieces.items }
    ensures extends { Extends (S.sets space.old) (S.sets space.new) }
    ensures more { OnOk result (IsOneMore (S.sets space.old) (S.sets space.new) first covering.old covering.new) }
{
    let configuration = configuration(alloc, space, first, covering.pieces.as_slice(), patience)?;
    let line = take_line(alloc, space, covering, configuration)?;
    covering.tries.push(line)?;
    Ok(())
}

/// What a report has to be covered.
fn start<S: Space>(
    alloc: Global,
    space: &mut S,
    report: &Report,
    sets: &[S::Id],
) -> Result<Covering<S::Id>, SpaceFault>
    requires { AreSetsOf (S.sets space.old) report.now.nodes sets.now }
    ensures extends { Extends (S.sets space.old) (S.sets space.new) }
    ensures start { IfOk result (IsStart (S.sets space.new) report.now) }
{
    let ended = ended(space, report, sets)?;
    let mut ends = Vec::new(alloc);
    push_ends(alloc, space, &mut ends, report, sets)?;
    let mut pieces = Vec::new(alloc);
    push_pieces(space, &mut pieces, report, sets, ended)?;
    let ends = blocks_of(alloc, space, ends.as_slice())?;
    let pieces = blocks_of(alloc, space, pieces.as_slice())?;
    Ok(Covering {
        ends,
        pieces,
        tries: Vec::new(alloc),
    })
}

/// The lines that cover what is to be covered.
fn all_lines<S: Space>(
    alloc: Global,
    space: &mut S,
    covering: Covering<S::Id>,
) -> Result<Vec<Try>, SpaceFault>
    requires ends { AreBlocks (S.sets space.old) covering.ends.items }
    requires pieces { AreBlocks (S.sets space.old) covering.pieces.items }
    ensures extends { Extends (S.sets space.old) (S.sets space.new) }
    ensures cover { IfOk result (λ tries. (r : Report) → length r.options ≡ (S.sets space.old).options → IsStart (S.sets space.old) r covering → IsCover r tries.items) }
{
    let mut patience = full_patience(space);
    let mut covering = covering;
    while let Some(first) = first_set(&covering) {
        cover_more(alloc, space, &mut covering, first, &mut patience)?;
    }
    let Covering {
        ends: _,
        pieces: _,
        tries,
    } = covering;
    Ok(tries)
}

/// A few configurations that cover a report: it has an end at each of them, and each end and each piece that any configuration
/// with an end has stands in one of the lines, once. So there are at most as many lines as ends and pieces. From what isn't covered yet
/// the first is taken, ends before pieces, and met with each of the rest in order that still can be, until that was tried in vain too
/// often.
pub fn cover<S: Space>(
    alloc: Global,
    space: &mut S,
    report: &Report,
) -> Result<Vec<Try>, SpaceFault>
    requires lawful { IsLawful report.now }
    requires options { length report.now.options ≡ (S.sets space.old).options }
    ensures extends { Extends (S.sets space.old) (S.sets space.new) }
    ensures cover { IfOk result (λ tries. IsCover report.now tries.items) }
{
    let sets = sets_of(alloc, space, report.nodes.as_slice())?;
    let covering = start(alloc, space, report, sets.as_slice())?;
    all_lines(alloc, space, covering)
}
