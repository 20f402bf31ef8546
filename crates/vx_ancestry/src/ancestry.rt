//! Whether a place is its own ancestor, by ranks and by ways that are found by one walk each.

ghost use Rattle.std.specs.Prelude.{◌≡◌, IfOk};
ghost use Rattle.std.proofs.Props.{props};
ghost use Rattle.vx_ancestry.specs.Ancestors.{AreRanked, is_own_ancestor};

use crate::below::is_own_by_rounds;
use crate::numbering::component_numbers;
use crate::ranks::{are_ranked, is_below_parents};
use crate::ways::{leads_up, way_to};
use std::alloc::{AllocError, Global};
use vx_list::Items;

/// Ranks of which no parent has a greater one than its child: those of the components, as found by one walk.
fn ranks_of(alloc: Global, parents: &[Items<usize>]) -> Result<Vec<usize>, AllocError>
    ensures { IfOk result (λ ranks. AreRanked parents.now ranks.items) }
{
    let ranks = component_numbers(alloc, parents)?;
    if are_ranked(parents, &ranks) {
        Ok(ranks)
    } else {
        Ok(Vec::new(alloc))
    }
}

/// Whether a place is its own ancestor, by a way up from it, or else by rounds over all places.
fn is_own_by_way(alloc: Global, parents: &[Items<usize>], place: usize) -> Result<bool, AllocError>
    ensures { IfOk result (λ own. own ≡ is_own_ancestor parents.now place) }
{
    let ways = way_to(alloc, parents, place)?;
    if leads_up(parents, &ways, place, place, parents.len()) {
        return Ok(true);
    }
    is_own_by_rounds(alloc, parents, place)
}

/// Places with the lists of their parents, and with ranks.
#[derive(Drop)]
pub struct Ancestry {
    pub parents: Vec<Items<usize>>,
    ranks: Vec<usize>,
    ghost ranked: { AreRanked parents.items ranks.items } by { Prim.hlevel props },
}

impl Ancestry {
    /// The places with these parents. It walks over all parents once.
    pub fn new(alloc: Global, parents: Vec<Items<usize>>) -> Result<Ancestry, AllocError>
        ensures { IfOk result (λ ancestry. ancestry.parents ≡ parents) }
    {
        let ranks = ranks_of(alloc, &parents)?;
        Ok(Ancestry { parents, ranks })
    }

    /// Whether a place is its own ancestor, up to as many steps as there are places. Where it isn't, only its parents are looked
    /// at; where it is, all that is above it is gone through once.
    pub fn is_own_ancestor(&self, alloc: Global, place: usize) -> Result<bool, AllocError>
        ensures { IfOk result (λ own. own ≡ is_own_ancestor self.now.parents.items place) }
    {
        let parents = self.parents.as_slice();
        if is_below_parents(parents, &self.ranks, place) {
            return Ok(false);
        }
        is_own_by_way(alloc, parents, place)
    }
}
