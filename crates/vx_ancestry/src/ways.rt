//! Ways from a place up to one above it.

ghost use Rattle.std.specs.Prelude.{◌≡◌, nat_eq, slice_set, true};
ghost use Rattle.std.specs.Bool.{OnTrue};
ghost use Rattle.std.specs.List.{list_any};
ghost use Rattle.vx_ancestry.specs.Ancestors.{is_ancestor_within, parents_of};

use crate::ranks::{parents_of, rank_of};
use std::alloc::{AllocError, Global};
use vx_list::Items;

/// Puts a number at a place, if it is there.
pub fn put(numbers: &mut [usize], place: usize, number: usize)
    ensures { numbers.new ≡ slice_set numbers.old place number }
{
    if place < numbers.len() {
        numbers[place] = number;
    }
}

/// Goes up from a place to one above it, by places that were not come to before, and puts down for each place on the way the
/// next one. Says whether it came there.
fn go_up(
    parents: &[Items<usize>],
    above: usize,
    place: usize,
    depth: usize,
    seen: &mut [bool],
    ways: &mut [usize],
) -> bool {
    if depth == 0 || place >= seen.len() || seen[place] {
        return false;
    }
    seen[place] = true;
    for parent in parents_of(parents, place) {
        if *parent == above || go_up(parents, above, *parent, depth - 1, seen, ways) {
            put(ways, place, *parent);
            return true;
        }
    }
    false
}

/// For the places on a way from a place up to itself the next ones, where there is such a way. Each place is come to once.
pub(crate) fn way_to(
    alloc: Global,
    parents: &[Items<usize>],
    place: usize,
) -> Result<Vec<usize>, AllocError> {
    let count = parents.len();
    let mut seen = vec![in alloc; false; count]?;
    let mut ways = vec![in alloc; 0; count]?;
    go_up(parents, place, place, count, &mut seen, &mut ways);
    Ok(ways)
}

fn is_parent(parents: &[Items<usize>], parent: usize, place: usize) -> bool
    ensures { result ≡ list_any (nat_eq parent) (parents_of parents.now place) }
{
    parents_of(parents, place)
        .iter()
        .any(|other| parent == *other)
}

/// Whether the way that is put down leads from a place up to another within so many steps.
pub fn leads_up(
    parents: &[Items<usize>],
    ways: &[usize],
    above: usize,
    place: usize,
    steps: usize,
) -> bool
    ensures { OnTrue result (is_ancestor_within parents.now steps above place ≡ true) }
{
    if steps == 0 {
        return false;
    }
    let next = rank_of(ways, place);
    if !is_parent(parents, next, place) {
        return false;
    }
    if next == above {
        return true;
    }
    leads_up(parents, ways, above, next, steps - 1)
}
