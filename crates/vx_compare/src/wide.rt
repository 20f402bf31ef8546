//! A report over more options, which it doesn't ask.

ghost use Rattle.std.specs.Prelude.{◌≡◌, ◌<◌, ◌≤◌, ◌^◌, IfOk, drop, length, map};
ghost use Rattle.std.specs.List.{AllByRecursion};
ghost use Rattle.vx_space.specs.Sets.{Extends, IsKnown, IsSet};
ghost use Rattle.vx_list.specs.Places.{item_or};
ghost use Rattle.vx_bdd_tools.specs.Listing.{choice};
ghost use Rattle.vx_bdd_tools.specs.Nodes.{IsReducedList};
ghost use Rattle.vx_report_reader.specs.Lawful.{IsLawful};
ghost use Rattle.vx_report_reader.specs.Rules.{roots_of};
ghost use Rattle.vx_words.specs.Names.{AreOptionNames};
ghost use Rattle.vx_compare.specs.Names.{IsWide, places_of};
ghost use Rattle.vx_compare.specs.Wide.{AreSeenSets, IsSeenListing, attempts_with, end_with, piece_with, renumbered, set_at, wide_report};

use crate::names::{copied_names, places_of};
use std::alloc::{AllocError, Global};
use vx_bdd_tools::{Node, NodeList, listing};
use vx_list::Items;
use vx_report::{AttemptLine, EndLine, Piece, Report};
use vx_space::{Space, SpaceFault};
use vx_value::Name;

/// The set that goes on to one set where an option is off, and to another where it is on.
fn choice<S: Space>(
    space: &mut S,
    option: u32,
    low: S::Id,
    high: S::Id,
) -> Result<S::Id, SpaceFault>
    requires option { option < (S.sets space.old).options }
    requires low { IsKnown (S.sets space.old) low }
    requires high { IsKnown (S.sets space.old) high }
    ensures ok { IfOk result (λ r. IsSet (S.sets space.new) r (choice (S.sets space.old) option low high)) }
    ensures extends { Extends (S.sets space.old) (S.sets space.new) }
{
    let on = space.option(option)?;
    let inside = space.and(high, on)?;
    let outside = space.minus(low, on)?;
    space.or(inside, outside)
}

/// The sets of a report's nodes, from never and always on, in a space in which its options stand at other places.
fn seen_sets<S: Space>(
    alloc: Global,
    space: &mut S,
    places: &[usize],
    nodes: &[Node],
) -> Result<Vec<S::Id>, SpaceFault>
    requires places { AllByRecursion (λ place. place < (S.sets space.old).options) places.now }
    requires nodes { IsReducedList (length places.now) nodes.now }
    ensures sets { IfOk result (λ ids. AreSeenSets (S.sets space.new) places.now nodes.now ids.items) }
    ensures extends { Extends (S.sets space.old) (S.sets space.new) }
{
    let mut ids = Vec::new(alloc);
    ids.push(space.never())?;
    ids.push(space.always())?;
    for node in nodes {
        let id = choice(
            space,
            places[node.option as usize] as u32,
            ids[node.low as usize],
            ids[node.high as usize],
        )?;
        ids.push(id)?;
    }
    Ok(ids)
}

/// The numbers that the pieces, the ends and the numbers of attempts name, in their order.
fn roots_of(alloc: Global, report: &Report) -> Result<Vec<u64>, AllocError>
    ensures { IfOk result (λ roots. roots.items ≡ roots_of report.now) }
{
    let mut roots = Vec::new(alloc);
    for piece in report.pieces.as_slice() {
        roots.push(piece.node)?;
    }
    for line in report.ends.as_slice() {
        roots.push(line.node)?;
    }
    for line in report.attempts.as_slice() {
        roots.push(line.node)?;
    }
    Ok(roots)
}

/// The set beside a number, and never where there is none.
fn set_at<S: Space>(space: &S, sets: &[S::Id], number: u64) -> S::Id
    ensures { result ≡ set_at (S.sets space.now) sets.now number }
{
    match sets.get(number as usize) {
        Some(set) => *set,
        None => space.never(),
    }
}

/// The sets beside some numbers.
fn sets_at<S: Space>(
    alloc: Global,
    space: &S,
    sets: &[S::Id],
    numbers: &[u64],
) -> Result<Vec<S::Id>, AllocError>
    ensures { IfOk result (λ found. found.items ≡ map (set_at (S.sets space.now) sets.now) numbers.now) }
{
    let mut found = Vec::new(alloc);
    for number in numbers {
        found.push(set_at(space, sets, *number))?;
    }
    Ok(found)
}

/// A list of nodes is shorter than 2^63.
fn is_short(nodes: &[Node])
    ensures { length nodes.now < 2 ^ 63 }
{
    let _len = nodes.len();
}

/// The nodes of a report over other names, with the numbers of its pieces, its ends and its numbers of attempts among them.
fn seen_listing<S: Space>(
    alloc: Global,
    space: &mut S,
    report: &Report,
    names: &[Name],
) -> Result<NodeList, SpaceFault>
    requires lawful { IsLawful report.now }
    requires all { AllByRecursion (λ place. place < length names.now) (places_of names.now report.now.options) }
    requires options { length names.now ≡ (S.sets space.old).options }
    ensures extends { Extends (S.sets space.old) (S.sets space.new) }
    ensures list { IfOk result (λ list. IsSeenListing report.now names.now list.nodes list.roots) }
{
    let places = places_of(alloc, names, report.options.as_slice())?;
    let sets = seen_sets(alloc, space, places.as_slice(), report.nodes.as_slice())?;
    let numbers = roots_of(alloc, report)?;
    let roots = sets_at(alloc, space, sets.as_slice(), numbers.as_slice())?;
    let list = listing(alloc, space, roots.as_slice())?;
    is_short(list.nodes.as_slice());
    Ok(list)
}

/// The first number, and 0 where there is none.
fn first_number(numbers: &[u64]) -> u64
    ensures { result ≡ item_or numbers.now 0 0 }
{
    numbers.first().copied().unwrap_or(0)
}

/// What stands behind so many numbers.
fn behind(numbers: &[u64], count: usize) -> &[u64]
    ensures { result.now ≡ drop count numbers.now }
{
    numbers.get(count..).unwrap_or(&[])
}

fn numbered_pieces(
    alloc: Global,
    pieces: Vec<Piece>,
    numbers: &[u64],
) -> Result<Vec<Piece>, AllocError>
    ensures { IfOk result (λ lines. lines.items ≡ renumbered piece_with pieces.items numbers.now) }
{
    let mut lines = Vec::new(alloc);
    let mut rest = numbers;
    for piece in pieces {
        let Piece {
            node: _,
            stream,
            text,
        } = piece;
        lines.push(Piece {
            node: first_number(rest),
            stream,
            text,
        })?;
        rest = behind(rest, 1);
    }
    Ok(lines)
}

fn numbered_ends(
    alloc: Global,
    ends: Vec<EndLine>,
    numbers: &[u64],
) -> Result<Vec<EndLine>, AllocError>
    ensures { IfOk result (λ lines. lines.items ≡ renumbered end_with ends.items numbers.now) }
{
    let mut lines = Vec::new(alloc);
    let mut rest = numbers;
    for line in ends {
        let EndLine { node: _, end } = line;
        lines.push(EndLine {
            node: first_number(rest),
            end,
        })?;
        rest = behind(rest, 1);
    }
    Ok(lines)
}

fn numbered_attempts(
    alloc: Global,
    attempts: &[AttemptLine],
    numbers: &[u64],
) -> Result<Vec<AttemptLine>, AllocError>
    ensures { IfOk result (λ lines. lines.items ≡ renumbered attempts_with attempts.now numbers.now) }
{
    let mut lines = Vec::new(alloc);
    let mut rest = numbers;
    for line in attempts {
        lines.push(AttemptLine {
            node: first_number(rest),
            attempts: line.attempts,
        })?;
        rest = behind(rest, 1);
    }
    Ok(lines)
}

/// The report with other options and other nodes.
fn with_nodes(
    alloc: Global,
    report: Report,
    options: Vec<Name>,
    list: NodeList,
) -> Result<Report, AllocError>
    ensures { IfOk result (λ wide. wide ≡ wide_report report options.items list.nodes list.roots) }
{
    let Report {
        version,
        options: _,
        limit,
        rounds,
        nodes: _,
        pieces,
        ends,
        attempts,
    } = report;
    let NodeList { nodes, roots } = list;
    let numbers = roots.as_slice();
    let behind_pieces = behind(numbers, pieces.len());
    let behind_ends = behind(behind_pieces, ends.len());
    let pieces = numbered_pieces(alloc, pieces.into_vec(), numbers)?;
    let ends = numbered_ends(alloc, ends.into_vec(), behind_pieces)?;
    let attempts = numbered_attempts(alloc, attempts.as_slice(), behind_ends)?;
    Ok(Report {
        version,
        options: Items::of(options),
        limit,
        rounds,
        nodes,
        pieces: Items::of(pieces),
        ends: Items::of(ends),
        attempts: Items::of(attempts),
    })
}

/// The same report over all of these options, among which its own are: at each configuration it says what the report says of the
/// values of its own.
pub fn widened<S: Space>(
    alloc: Global,
    space: &mut S,
    report: Report,
    names: &[Name],
) -> Result<Report, SpaceFault>
    requires lawful { IsLawful report }
    requires names { AreOptionNames names.now }
    requires all { AllByRecursion (λ place. place < length names.now) (places_of names.now report.options) }
    requires options { length names.now ≡ (S.sets space.old).options }
    ensures extends { Extends (S.sets space.old) (S.sets space.new) }
    ensures wide { IfOk result (IsWide report names.now) }
{
    let list = seen_listing(alloc, space, &report, names)?;
    let options = copied_names(alloc, names)?;
    Ok(with_nodes(alloc, report, options, list)?)
}
