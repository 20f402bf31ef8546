//! Single numbers with the sets in which they are: the greatest number in what is left, with its set, comes before those that came so far.

ghost use Rattle.std.specs.Prelude.{IfOk};
ghost use Rattle.std.specs.Ordering.{nat_cmp};
ghost use Rattle.vx_space.specs.Sets.{IsKnown, Extends};
ghost use Rattle.vx_cond.specs.Leaves.{AreLeavesOf};
ghost use Rattle.vx_tally.specs.Tally.{IsTally};
ghost use Rattle.vx_tally.specs.Listed.{IsListed, Fit, numbers_in};

use crate::tally::Tally;
use std::alloc::Global;
use vx_cond::Leaf;
use vx_space::{Space, SpaceFault};

/// Puts the greatest number in what is left of a set before the others, with its set. What is left then, or none where nothing is left.
fn list_greatest<S: Space>(
    alloc: Global,
    space: &mut S,
    tally: &Tally,
    rest: S::Id,
    leaves: &mut Vec<Leaf<u64, S>>,
) -> Result<Option<S::Id>, SpaceFault>
    requires tally { IsTally (S.sets space.old).options tally.now }
    requires known { IsKnown (S.sets space.old) rest }
    ensures extends { Extends (S.sets space.old) (S.sets space.new) }
    ensures ok { IfOk result (IsListed (S.sets space.old) (S.sets space.new) tally.now rest leaves.old.items leaves.new.items) }
{
    let Some(most) = tally.most_in(alloc, space, rest)? else {
        return Ok(None);
    };
    let condition = tally.reaching(alloc, space, rest, most)?;
    leaves.insert(
        0,
        Leaf {
            value: most,
            condition,
        },
    )?;
    let left = space.minus(rest, condition)?;
    Ok(Some(left))
}

/// The numbers of a tally in a set, ascending, each with its set. It takes a walk over the set and the tally for each number.
pub(crate) fn listed_numbers<S: Space>(
    alloc: Global,
    space: &mut S,
    tally: &Tally,
    within: S::Id,
) -> Result<Vec<Leaf<u64, S>>, SpaceFault>
    requires tally { IsTally (S.sets space.old).options tally.now }
    requires known { IsKnown (S.sets space.old) within }
    requires fit { Fit (S.sets space.old) tally.now within }
    ensures extends { Extends (S.sets space.old) (S.sets space.new) }
    ensures ok { IfOk result (λ r. AreLeavesOf nat_cmp (S.sets space.new) (numbers_in (S.sets space.old) tally.now within) r.items) }
{
    let mut leaves = Vec::new(alloc);
    let mut rest = within;
    'numbers: loop {
        match list_greatest(alloc, space, tally, rest, &mut leaves)? {
            Some(left) => rest = left,
            None => return Ok(leaves),
        }
    }
}
