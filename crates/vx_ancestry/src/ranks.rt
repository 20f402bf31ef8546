//! Ranks of places, of which no parent has a greater one than its child. A place whose parents have lesser ranks is not its own
//! ancestor.

ghost use Rattle.std.specs.Prelude.{◌≡◌, nat_le, nat_lt};
ghost use Rattle.std.specs.Bool.{OnTrue};
ghost use Rattle.vx_ancestry.specs.Ancestors.{AreRanked, are_at_most, are_below, parents_of, rank_of};

use vx_list::Items;

/// The parents of a place.
pub fn parents_of(parents: &[Items<usize>], place: usize) -> &[usize]
    ensures { result.now ≡ parents_of parents.now place }
{
    match parents.get(place) {
        Some(row) => row.as_slice(),
        None => &[],
    }
}

/// The rank of a place, or 0 where it has none.
pub fn rank_of(ranks: &[usize], place: usize) -> usize
    ensures { result ≡ rank_of ranks.now place }
{
    ranks.get(place).copied().unwrap_or(0)
}

fn is_less(ranks: &[usize], own: usize, parent: usize) -> bool
    ensures { result ≡ nat_lt (rank_of ranks.now parent) own }
{
    rank_of(ranks, parent) < own
}

fn are_below(ranks: &[usize], own: usize, parents: &[usize]) -> bool
    ensures { result ≡ are_below ranks.now own parents.now }
{
    parents.iter().all(|parent| is_less(ranks, own, *parent))
}

/// Whether each parent of a place has a lesser rank.
pub fn is_below_parents(parents: &[Items<usize>], ranks: &[usize], place: usize) -> bool
    ensures { result ≡ are_below ranks.now (rank_of ranks.now place) (parents_of parents.now place) }
{
    are_below(ranks, rank_of(ranks, place), parents_of(parents, place))
}

fn is_at_most(ranks: &[usize], own: usize, parent: usize) -> bool
    ensures { result ≡ nat_le (rank_of ranks.now parent) own }
{
    rank_of(ranks, parent) <= own
}

fn are_at_most(ranks: &[usize], own: usize, parents: &[usize]) -> bool
    ensures { result ≡ are_at_most ranks.now own parents.now }
{
    parents.iter().all(|parent| is_at_most(ranks, own, *parent))
}

/// Whether no parent has a greater rank than its child.
pub fn are_ranked(parents: &[Items<usize>], ranks: &[usize]) -> bool
    ensures { OnTrue result (AreRanked parents.now ranks.now) }
{
    for place in 0..parents.len() {
        if !are_at_most(ranks, rank_of(ranks, place), parents_of(parents, place)) {
            return false;
        }
    }
    true
}
