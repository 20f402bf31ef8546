//! The sets of a list of nodes.

ghost use Rattle.std.specs.Prelude.{◌<◌, IfOk};
ghost use Rattle.vx_space.specs.Sets.{Extends, IsKnown, IsSet};
ghost use Rattle.vx_bdd_tools.specs.Listing.{AreSetsOf, choice};
ghost use Rattle.vx_bdd_tools.specs.Nodes.{IsReducedList, holds};

use crate::node::Node;
use std::alloc::Global;
use vx_space::{Space, SpaceFault};

/// The set that goes on to one set where an option is off, and to another where it is on.
fn choice<S: Space>(
    space: &mut S,
    option: u32,
    low: S::Id,
    high: S::Id,
) -> Result<S::Id, SpaceFault>
    requires option { option < (S.sets space.old).options }
    requires low { IsKnown (S.sets space.old) low }
    requires high { IsKnown (S.sets space.old) high }
    ensures ok { IfOk result (λ r. IsSet (S.sets space.new) r (choice (S.sets space.old) option low high)) }
    ensures extends { Extends (S.sets space.old) (S.sets space.new) }
{
    let on = space.option(option)?;
    let inside = space.and(high, on)?;
    let outside = space.minus(low, on)?;
    space.or(inside, outside)
}

/// The set that each number of a reduced list of nodes holds, from never and always on: what `listing` numbers, taken back.
pub fn sets_of<S: Space>(
    alloc: Global,
    space: &mut S,
    nodes: &[Node],
) -> Result<Vec<S::Id>, SpaceFault>
    requires { IsReducedList (S.sets space.old).options nodes.now }
    ensures ok { IfOk result (λ ids. AreSetsOf (S.sets space.new) nodes.now ids.items) }
    ensures extends { Extends (S.sets space.old) (S.sets space.new) }
{
    let mut ids = Vec::new(alloc);
    ids.push(space.never())?;
    ids.push(space.always())?;
    for node in nodes {
        let id = choice(
            space,
            node.option,
            ids[node.low as usize],
            ids[node.high as usize],
        )?;
        ids.push(id)?;
    }
    Ok(ids)
}

/// The set of a number among the sets of nodes, as `sets_of` gives them; a number past them holds nothing.
pub fn set_of<S: Space>(space: &S, sets: &[S::Id], node: u64) -> S::Id
    ensures { (nodes : _) → AreSetsOf (S.sets space.now) nodes sets.now → IsSet (S.sets space.now) result (holds nodes node) }
{
    match sets.get(node as usize) {
        Some(set) => *set,
        None => space.never(),
    }
}
