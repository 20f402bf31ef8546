//! Choosing the options by which a model is cut.

ghost use Rattle.std.specs.Prelude.{◌≡◌, true, None, IfSome, IfOk, length};
ghost use Rattle.vx_space.specs.Sets.{Extends, IsKnown};
ghost use Rattle.vx_report_reader.specs.Lawful.{IsLawful};
ghost use Rattle.vx_cut.specs.Choices.{HasChoice, IsOpen};

use crate::ranks::ranks_of;
use std::alloc::{AllocError, Global};
use vx_report::Report;
use vx_space::{Space, SpaceFault};

/// The rank of an option; one that isn't there has 0.
fn rank_at(ranks: &[u128], place: usize) -> u128 {
    ranks.get(place).copied().unwrap_or(0)
}

/// Whether an option has a greater rank than the best one so far, or is the first.
fn is_better(ranks: &[u128], best: Option<usize>, place: usize) -> bool
    ensures { best ≡ None → result ≡ true }
{
    match best {
        None => true,
        Some(before) => rank_at(ranks, place) > rank_at(ranks, before),
    }
}

/// The first of the options of the greatest rank among those that aren't chosen yet, or `None` where all are chosen.
fn best_open(ranks: &[u128], chosen: &[bool]) -> Option<usize>
    ensures { IsOpen chosen.now result }
{
    let mut best = None;
    for place in 0..chosen.len() {
        if !chosen[place] && is_better(ranks, best, place) {
            best = Some(place);
        }
    }
    best
}

/// Chooses so many options, those of the greatest ranks and of equal ones the first, or `None` where there are fewer.
fn highest(alloc: Global, ranks: &[u128], count: u32) -> Result<Option<Vec<bool>>, AllocError>
    ensures { IfOk result (HasChoice (length ranks.now) count) }
{
    let mut chosen = vec![in alloc; false; ranks.len()]?;
    for round in 0..count {
        let Some(place) = best_open(ranks, chosen.as_slice()) else {
            return Ok(None);
        };
        chosen[place] = true;
    }
    Ok(Some(chosen))
}

/// Chooses so many of the options of a space by which to cut the set of allowed configurations, or `None` where there are fewer.
///
/// Options that all allowed configurations have on, or all off, come last. Of the others those come first on which most of a report's
/// distinct sets of pieces and ends depend; without a report those of which the rarer value has the most configurations; and then those that
/// stand first.
pub fn choice_of<S: Space>(
    alloc: Global,
    space: &mut S,
    allowed: S::Id,
    count: u32,
    report: &Option<Report>,
) -> Result<Option<Vec<bool>>, SpaceFault>
    requires known { IsKnown (S.sets space.old) allowed }
    requires report { IfSome report.now IsLawful }
    ensures choice { IfOk result (HasChoice (S.sets space.old).options count) }
    ensures extends { Extends (S.sets space.old) (S.sets space.new) }
{
    let ranks = ranks_of(alloc, space, allowed, report)?;
    Ok(highest(alloc, ranks.as_slice(), count)?)
}
