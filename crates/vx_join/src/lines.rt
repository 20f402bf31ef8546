//! What was collected, as a report: each value in a line with the number of its set's node.

ghost use Rattle.std.specs.Prelude.{◌≡◌, ◌++◌, IfOk, OnOk, drop};
ghost use Rattle.vx_list.specs.Places.{item_or};
ghost use Rattle.vx_space.specs.Sets.{AreKnown};
ghost use Rattle.vx_bdd_tools.specs.Listing.{IsListing};
ghost use Rattle.vx_join.specs.Steps.{collected_ids, lines_with, shared_ids};

use crate::collecting::Collected;
use crate::entry::Entry;
use std::alloc::{AllocError, Global};
use vx_bdd_tools::{NodeList, listing};
use vx_findings::Shared;
use vx_space::Space;

/// The number of the next set, and 0 behind the last one.
fn first_number(numbers: &[u64]) -> u64
    ensures { result ≡ item_or numbers.now 0 0 }
{
    numbers.first().copied().unwrap_or(0)
}

/// What stands behind so many numbers.
pub fn behind(numbers: &[u64], count: usize) -> &[u64]
    ensures { result.now ≡ drop count numbers.now }
{
    numbers.get(count..).unwrap_or(&[])
}

/// Puts the sets of some values.
fn put_sets<V, S: Space>(ids: &mut Vec<S::Id>, values: &[Shared<V, S>]) -> Result<(), AllocError>
    ensures { OnOk result (ids.new.items ≡ ids.old.items ++ shared_ids values.now) }
{
    for shared in values {
        ids.push(shared.condition)?;
    }
    Ok(())
}

/// The lines of some values, with the numbers of their sets.
pub fn lines_of<E: Entry, S: Space>(
    alloc: Global,
    values: Vec<Shared<E::Value, S>>,
    numbers: &[u64],
) -> Result<Vec<E>, AllocError>
    ensures { IfOk result (λ lines. lines.items ≡ lines_with E.line values.items numbers.now) }
{
    let mut lines = Vec::new(alloc);
    let mut rest = numbers;
    for shared in values {
        lines.push(E::of(first_number(rest), shared.value))?;
        rest = behind(rest, 1);
    }
    Ok(lines)
}

/// The nodes of all that was collected, and the numbers of its sets among them.
pub fn nodes_of<S: Space>(
    alloc: Global,
    space: &S,
    collected: &Collected<S>,
) -> Result<NodeList, AllocError>
    requires { AreKnown (S.sets space.now) (collected_ids collected.now) }
    ensures { IfOk result (λ list. IsListing (S.sets space.now) (collected_ids collected.now) list.nodes list.roots) }
{
    let mut ids = Vec::new(alloc);
    put_sets(&mut ids, collected.found.as_slice())?;
    put_sets(&mut ids, collected.ends.as_slice())?;
    put_sets(&mut ids, collected.spent.as_slice())?;
    listing(alloc, space, ids.as_slice())
}
