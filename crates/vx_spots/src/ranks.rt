//! The kinds of what is lacking, by how many spots lack them.

ghost use Rattle.std.specs.Prelude.{◌≡◌, ◌≤◌, IfOk, None, length};
ghost use Rattle.vx_spots.specs.Ranks.{AreRanks, is_at, places_in, ranks_from};

use crate::entries::Entry;
use std::alloc::{AllocError, Global};
use std::cmp::Reverse;

/// A kind, by how many spots lack it, and by the place in the order of entries from which on those of the kind stand. The one that
/// the most spots lack is the least.
#[derive(Clone, Copy, Debug, PartialEq, Eq, PartialOrd, Ord)]
pub struct Rank {
    pub places: Reverse<usize>,
    pub start: usize,
}

/// Whether a place is the one that came last, if one came.
pub(crate) fn is_at(last: Option<usize>, place: usize) -> bool
    ensures { result ≡ is_at last place }
{
    match last {
        Some(last) => last == place,
        None => false,
    }
}

/// How many spots the entries of a kind in front are of.
fn places_in(kind: usize, entries: &[Entry]) -> usize
    ensures value { result ≡ places_in kind None entries.now }
    ensures within { result ≤ length entries.now }
{
    let mut places = 0;
    let mut last = None;
    let mut rest = entries;
    while let [entry, behind @ ..] = rest {
        if entry.kind != kind {
            return places;
        }
        if !is_at(last, entry.spot) {
            places += 1;
        }
        last = Some(entry.spot);
        rest = behind;
    }
    places
}

/// The kinds of entries in their order.
fn ranks_of(alloc: Global, order: &[Entry]) -> Result<Vec<Rank>, AllocError>
    ensures { IfOk result (λ ranks. ranks.items ≡ ranks_from None 0 order.now) }
{
    let mut ranks = Vec::new(alloc);
    let mut last = None;
    let mut rest = order;
    let mut start = 0;
    while let [entry, behind @ ..] = rest {
        if !is_at(last, entry.kind) {
            let places = Reverse(places_in(entry.kind, rest));
            ranks.push(Rank { places, start })?;
        }
        last = Some(entry.kind);
        rest = behind;
        start += 1;
    }
    Ok(ranks)
}

/// The same, the one that the most spots lack first, and of two that as many lack the one whose entries come first.
pub(crate) fn sorted_ranks(alloc: Global, order: &[Entry]) -> Result<Vec<Rank>, AllocError>
    ensures { IfOk result (λ ranks. AreRanks order.now ranks.items) }
{
    let mut ranks = ranks_of(alloc, order)?;
    ranks.sort()?;
    Ok(ranks)
}
