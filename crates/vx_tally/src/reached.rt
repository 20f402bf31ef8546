//! The configurations at which a number is at least a bound.

ghost use Rattle.std.specs.Prelude.{◌≡◌, ◌+◌, ◌-◌, ◌≤◌, ◌&&◌, Bool, IfOk, IsTrue, List, length, min, false, nat_le, slice_index, ◌<◌, ◌^◌, if◌then◌else◌};
ghost use Rattle.vx_space.specs.Config.{value_of};
ghost use Rattle.vx_space.specs.Sets.{IsKnown, IsSet, Extends};
ghost use Rattle.vx_bdd_tools.specs.Steps.{IsFreeBelow};
ghost use Rattle.vx_tally.specs.Tally.{AreNodes, level, sum_of};
ghost use Rattle.vx_tally.specs.Answers.{AreBounds, AreReached};

use crate::memo::{Memo, Question};
use crate::node::{Edge, TallyNode};
use crate::parts::divided;
use std::alloc::{AllocError, Global};
use vx_space::{Space, SpaceFault};

/// A number that no sum behind an edge is above, where that is below the greatest number that there is.
fn bound_of(bounds: &[u64], edge: Edge) -> u64
    requires { edge.place < length bounds.now }
    ensures { result ≡ min (slice_index bounds.now edge.place + edge.more) (2 ^ 64 - 1) }
{
    bounds[edge.place].saturating_add(edge.more)
}

/// For each place a number that no sum from there on is above.
pub(crate) fn bounds(
    alloc: Global,
    options: u32,
    nodes: &[TallyNode],
) -> Result<Vec<u64>, AllocError>
    requires { AreNodes options nodes.now }
    ensures { IfOk result (λ r. AreBounds nodes.now (length nodes.now) r.items) }
{
    let mut bounds = Vec::new(alloc);
    bounds.push(0)?;
    for index in 0..nodes.len() {
        let node = nodes[index];
        let low = bound_of(bounds.as_slice(), node.low);
        let high = bound_of(bounds.as_slice(), node.high);
        bounds.push(low.max(high))?;
    }
    Ok(bounds)
}

/// Whether it shows at once that a place adds less than what is asked, and more than nothing, at each configuration of a set.
fn reaches_none<S: Space>(
    space: &S,
    nodes: &[TallyNode],
    bounds: &[u64],
    set: S::Id,
    place: usize,
    more: u64,
) -> bool
    requires known { IsKnown (S.sets space.now) set }
    requires bounds { AreBounds nodes.now (length nodes.now) bounds.now }
    requires given { place ≤ length nodes.now }
    requires more { 0 < more }
    ensures none { IsTrue result → (c : List Bool) → ((S.sets space.now).test set c && nat_le more (sum_of nodes.now place c)) ≡ false }
    ensures inner { result ≡ false → 0 < place }
{
    if place == 0 {
        return true;
    }
    let bound = bounds[place];
    if bound < more {
        return true;
    }
    space.is_never(set)
}

/// The configurations of one set with an option off, and of another with it on.
pub(crate) fn either_set<S: Space>(
    space: &mut S,
    option: u32,
    low: S::Id,
    high: S::Id,
) -> Result<S::Id, SpaceFault>
    requires option { option < (S.sets space.old).options }
    requires low { IsKnown (S.sets space.old) low }
    requires high { IsKnown (S.sets space.old) high }
    ensures extends { Extends (S.sets space.old) (S.sets space.new) }
    ensures ok { IfOk result (λ r. IsSet (S.sets space.new) r (λ c. if value_of c option then (S.sets space.old).test high c else (S.sets space.old).test low c)) }
{
    if low == high {
        return Ok(low);
    }
    let on = space.option(option)?;
    let above = space.and(on, high)?;
    let below = space.minus(low, on)?;
    space.or(below, above)
}

/// The configurations of a set for which a place adds at least so much. Neither asks an option below `from`.
#[tactic(auto, using(crate::proofs::ReachedLaws::reached_words))]
pub(crate) fn reached<S: Space>(
    space: &mut S,
    nodes: &[TallyNode],
    bounds: &[u64],
    known: &mut Memo<S, S::Id>,
    from: u32,
    set: S::Id,
    to: Edge,
) -> Result<S::Id, SpaceFault>
    requires nodes { AreNodes (S.sets space.old).options nodes.now }
    requires bounds { AreBounds nodes.now (length nodes.now) bounds.now }
    requires known { IsKnown (S.sets space.old) set }
    requires free { IsFreeBelow (S.sets space.old) set from }
    requires given { to.place ≤ length nodes.now }
    requires level { from ≤ level (S.sets space.old).options nodes.now to.place }
    requires answers { AreReached (S.sets space.old) nodes.now known.old }
    ensures extends { Extends (S.sets space.old) (S.sets space.new) }
    ensures answers { IfOk result (λ _. AreReached (S.sets space.new) nodes.now known.new) }
    ensures ok { IfOk result (λ r. IsSet (S.sets space.new) r (λ c. (S.sets space.old).test set c && nat_le to.more (sum_of nodes.now to.place c))) }
{
    if to.more == 0 {
        return Ok(set);
    }
    if reaches_none(space, nodes, bounds, set, to.place, to.more) {
        return Ok(space.never());
    }
    let asked = Question {
        a: set,
        b: set,
        first: to,
        second: to,
    };
    if let Some(id) = known.get(asked) {
        return Ok(id);
    }
    let parts = divided(space, nodes, set, to.place);
    let from = parts.option + 1;
    let below = reached(
        space,
        nodes,
        bounds,
        known,
        from,
        parts.off,
        left(to, parts.low),
    )?;
    let above = reached(
        space,
        nodes,
        bounds,
        known,
        from,
        parts.on,
        left(to, parts.high),
    )?;
    let id = either_set(space, parts.option, below, above)?;
    known.put(asked, id)?;
    Ok(id)
}

/// What is left of what an edge asks behind another one.
fn left(to: Edge, by: Edge) -> Edge
    ensures { result ≡ record { place = by.place; more = to.more - by.more } }
{
    Edge {
        place: by.place,
        more: to.more.saturating_sub(by.more),
    }
}
