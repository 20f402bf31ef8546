//! The places that stand below one place, found for all places at once, a step at a time.

ghost use Rattle.std.specs.Prelude.{◌≡◌, IfOk, map, false, length};
ghost use Rattle.std.specs.List.{list_any};
ghost use Rattle.vx_list.specs.Places.{item_or};
ghost use Rattle.vx_ancestry.specs.Ancestors.{leads_to, one_step_more, below_within, is_own_ancestor};

use std::alloc::{AllocError, Global};
use vx_list::Items;

fn holds_at(places: &[bool], place: usize) -> bool
    ensures { result ≡ item_or places.now place false }
{
    places.get(place).copied().unwrap_or(false)
}

fn leads_to(above: usize, below: &[bool], parent: usize) -> bool
    ensures { result ≡ leads_to above below.now parent }
{
    above == parent || holds_at(below, parent)
}

fn some_lead_to(above: usize, below: &[bool], parents: &[usize]) -> bool
    ensures { result ≡ list_any (leads_to above below.now) parents.now }
{
    parents.iter().any(|parent| leads_to(above, below, *parent))
}

fn one_step_more(
    alloc: Global,
    parents: &[Items<usize>],
    above: usize,
    below: &[bool],
) -> Result<Vec<bool>, AllocError>
    ensures { IfOk result (λ more. more.items ≡ one_step_more parents.now above below.now) }
{
    let mut more = Vec::new(alloc);
    for row in parents {
        let leads = some_lead_to(above, below, row.as_slice());
        more.push(leads)?;
    }
    Ok(more)
}

fn none_below(alloc: Global, parents: &[Items<usize>]) -> Result<Vec<bool>, AllocError>
    ensures { IfOk result (λ below. below.items ≡ map (λ row. false) parents.now) }
{
    let mut below = Vec::new(alloc);
    for _row in parents {
        below.push(false)?;
    }
    Ok(below)
}

fn all_below(alloc: Global, parents: &[Items<usize>], above: usize) -> Result<Vec<bool>, AllocError>
    ensures { IfOk result (λ below. below.items ≡ below_within parents.now above (length parents.now)) }
{
    let mut below = none_below(alloc, parents)?;
    for _steps in 0..parents.len() {
        let more = one_step_more(alloc, parents, above, &below)?;
        if more.as_slice() == below.as_slice() {
            return Ok(below);
        }
        below = more;
    }
    Ok(below)
}

/// Whether a place is its own ancestor, up to as many steps as there are places. It takes as many rounds over all places as
/// the longest way up to the place has steps.
pub fn is_own_by_rounds(
    alloc: Global,
    parents: &[Items<usize>],
    place: usize,
) -> Result<bool, AllocError>
    ensures { IfOk result (λ own. own ≡ is_own_ancestor parents.now place) }
{
    let below = all_below(alloc, parents, place)?;
    Ok(holds_at(&below, place))
}
