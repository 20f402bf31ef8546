//! The join of several reports.

ghost use Rattle.std.specs.Prelude.{◌≡◌, ◌≤◌, ◌<◌, ◌^◌, ◌∷◌, ◌&&◌, nat_eq, IfOk, IfSome, MatchOption, false, length, true};
ghost use Rattle.std.specs.List.{AllByRecursion};
ghost use Rattle.vx_space.specs.Sets.{Extends};
ghost use Rattle.vx_report_reader.specs.Lawful.{IsLawful};
ghost use Rattle.vx_report_reader.specs.Rules.{is_nil};
ghost use Rattle.vx_join.specs.Joined.{IsJoin, IsLike, is_joinable, rounds_of};
ghost use Rattle.vx_join.specs.Steps.{report_by};
ghost use Rattle.vx_join.specs.Text.{IsJoinedText, IsOnlyJoined};

use crate::collecting::{Collected, collect};
use crate::copies::copied_names;
use crate::lines::{behind, lines_of, nodes_of};
use std::alloc::{AllocError, Global};
use vx_bdd_tools::{Node, NodeList};
use vx_list::Items;
use vx_report::{AttemptLine, EndLine, Piece, Report, write_report};
use vx_space::{Space, SpaceFault};

/// How many rounds some reports made together, where that fits.
fn rounds_of(first: &Report, others: &[Report]) -> Option<u128>
    ensures { MatchOption result (2 ^ 128 ≤ rounds_of (first.now ∷ others.now)) (λ rounds. rounds ≡ rounds_of (first.now ∷ others.now)) }
{
    let mut rounds = first.rounds;
    for report in others {
        rounds = rounds.checked_add(report.rounds)?;
    }
    Some(rounds)
}

/// The report of what was collected, with the version, the options and the limit of another one.
fn report_of<S: Space>(
    alloc: Global,
    like: &Report,
    rounds: u128,
    collected: Collected<S>,
    list: NodeList,
) -> Result<Report, AllocError>
    ensures { IfOk result (λ report. report ≡ report_by like.now rounds collected list.nodes list.roots) }
{
    let Collected { found, ends, spent } = collected;
    let NodeList { nodes, roots } = list;
    let numbers = roots.as_slice();
    let behind_found = behind(numbers, found.len());
    let behind_ends = behind(behind_found, ends.len());
    let pieces = lines_of(alloc, found, numbers)?;
    let ends = lines_of(alloc, ends, behind_found)?;
    let attempts = lines_of(alloc, spent, behind_ends)?;
    let options = copied_names(alloc, like.options.as_slice())?;
    Ok(Report {
        version: like.version,
        options: Items::of(options),
        limit: like.limit,
        rounds,
        nodes,
        pieces: Items::of(pieces),
        ends: Items::of(ends),
        attempts: Items::of(attempts),
    })
}

/// Whether version 2 would have no number of attempts.
fn lacks_attempts<S: Space>(version: u8, collected: &Collected<S>) -> bool
    ensures { result ≡ (nat_eq version 2 && is_nil collected.now.spent.items) }
{
    version == 2 && collected.spent.is_empty()
}

/// A list of nodes is shorter than 2^63, and a number of rounds below 2^128.
fn counts_fit(nodes: &[Node], rounds: u128)
    ensures nodes { length nodes.now < 2 ^ 63 }
    ensures rounds { rounds < 2 ^ 128 }
{
    let _len = nodes.len();
}

/// One report out of several, over the same options, limit and version: at each configuration it says what the first of them says in
/// which the configuration has an end. Its rounds are theirs together. `None` where these pass 128 bits, or where version 2 would have no
/// number of attempts.
pub fn join<S: Space>(
    alloc: Global,
    space: &mut S,
    first: &Report,
    others: &[Report],
) -> Result<Option<Report>, SpaceFault>
    requires first { IsLawful first.now }
    requires others { AllByRecursion IsLawful others.now }
    requires like { AllByRecursion (IsLike first.now) others.now }
    requires options { length first.now.options ≡ (S.sets space.old).options }
    ensures extends { Extends (S.sets space.old) (S.sets space.new) }
    ensures join { IfOk result (IsJoin (first.now ∷ others.now)) }
{
    let Some(rounds) = rounds_of(first, others) else {
        return Ok(None);
    };
    let collected = collect(alloc, space, first, others)?;
    if lacks_attempts(first.version, &collected) {
        return Ok(None);
    }
    let list = nodes_of(alloc, space, &collected)?;
    counts_fit(list.nodes.as_slice(), rounds);
    Ok(Some(report_of(alloc, first, rounds, collected, list)?))
}

/// The text of the join of several reports.
pub fn join_text<S: Space>(
    alloc: Global,
    space: &mut S,
    first: &Report,
    others: &[Report],
) -> Result<Option<Vec<u8>>, SpaceFault>
    requires first { IsLawful first.now }
    requires others { AllByRecursion IsLawful others.now }
    requires like { AllByRecursion (IsLike first.now) others.now }
    requires options { length first.now.options ≡ (S.sets space.old).options }
    ensures extends { Extends (S.sets space.old) (S.sets space.new) }
    ensures text { IfOk result (λ text. MatchOption text (is_joinable (first.now ∷ others.now) ≡ false) (λ t. (is_joinable (first.now ∷ others.now) ≡ true) × IsJoinedText (first.now ∷ others.now) t.items)) }
    ensures only { IfOk result (λ text. IfSome text (λ t. IsOnlyJoined (first.now ∷ others.now) t.items)) }
{
    let Some(report) = join(alloc, space, first, others)? else {
        return Ok(None);
    };
    Ok(Some(write_report(alloc, &report)?))
}
