//! The greatest number in a set.

ghost use Rattle.std.specs.Prelude.{◌≡◌, ◌+◌, ◌-◌, ◌^◌, ◌≤◌, IfOk, length, min, max};
ghost use Rattle.vx_space.specs.Sets.{IsKnown};
ghost use Rattle.vx_bdd_tools.specs.Steps.{IsFreeBelow};
ghost use Rattle.vx_tally.specs.Tally.{AreNodes, level, sum_of};
ghost use Rattle.vx_tally.specs.Answers.{AreMost, IsMostIn, IsGreater};

use crate::memo::{Memo, Question};
use crate::node::{Edge, TallyNode};
use crate::parts::divided;
use std::alloc::AllocError;
use vx_space::Space;

/// The greater of two numbers behind what is added to each.
pub(crate) fn greater(
    low: Option<u64>,
    low_more: u64,
    high: Option<u64>,
    high_more: u64,
) -> Option<u64>
    ensures { IsGreater low low_more high high_more result }
{
    let Some(low) = low else {
        return Some(high?.saturating_add(high_more));
    };
    let low = low.saturating_add(low_more);
    let Some(high) = high else {
        return Some(low);
    };
    Some(low.max(high.saturating_add(high_more)))
}

/// The greatest number that a place adds in a set, or none where the set is never. Neither asks an option below `from`.
pub(crate) fn most_of<S: Space>(
    space: &S,
    nodes: &[TallyNode],
    known: &mut Memo<S, Option<u64>>,
    from: u32,
    set: S::Id,
    place: usize,
) -> Result<Option<u64>, AllocError>
    requires nodes { AreNodes (S.sets space.now).options nodes.now }
    requires known { IsKnown (S.sets space.now) set }
    requires free { IsFreeBelow (S.sets space.now) set from }
    requires given { place ≤ length nodes.now }
    requires level { from ≤ level (S.sets space.now).options nodes.now place }
    requires answers { AreMost (S.sets space.now) nodes.now known.old }
    ensures answers { IfOk result (λ _. AreMost (S.sets space.now) nodes.now known.new) }
    ensures most { IfOk result (IsMostIn (S.sets space.now) (sum_of nodes.now place) set) }
{
    if space.is_never(set) {
        return Ok(None);
    }
    if place == 0 {
        return Ok(Some(0));
    }
    let here = Edge { place, more: 0 };
    let asked = Question {
        a: set,
        b: set,
        first: here,
        second: here,
    };
    if let Some(most) = known.get(asked) {
        return Ok(most);
    }
    let parts = divided(space, nodes, set, place);
    let from = parts.option + 1;
    let low = most_of(space, nodes, known, from, parts.off, parts.low.place)?;
    let high = most_of(space, nodes, known, from, parts.on, parts.high.place)?;
    let most = greater(low, parts.low.more, high, parts.high.more);
    known.put(asked, most)?;
    Ok(most)
}
