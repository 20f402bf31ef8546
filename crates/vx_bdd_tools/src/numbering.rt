//! The nodes of some sets as a list, in a report's numbering.

ghost use Rattle.std.specs.Prelude.{◌≡◌, ◌≢◌, ◌≤◌, IfOk};
ghost use Rattle.std.specs.BTreeMap.{get};
ghost use Rattle.vx_space.specs.Sets.{IsKnown, AreKnown};
ghost use Rattle.vx_bdd_tools.specs.Listing.{IsListing, IsOnlyListing};
ghost use Rattle.vx_bdd_tools.specs.Steps.{IsFreeBelow, IsListed, IsNumberingStep};

use crate::node::{Node, NodeList};
use std::alloc::{AllocError, Global};
use std::collections::BTreeMap;
use vx_list::Items;
use vx_space::Space;

/// The nodes of the roots' reduced diagrams, and the roots' numbers among them, in the numbering of a report: from each
/// root in order first the low part is numbered, then the high part, then the node itself, passing over what is numbered.
pub fn listing<S: Space>(alloc: Global, space: &S, roots: &[S::Id]) -> Result<NodeList, AllocError>
    requires { AreKnown (S.sets space.now) roots.now }
    ensures ok { IfOk result (λ list. IsListing (S.sets space.now) roots.now list.nodes list.roots) }
    ensures only { IfOk result (λ list. IsOnlyListing (S.sets space.now) roots.now list.nodes list.roots) }
{
    let mut nodes = Vec::new(alloc);
    let mut numbers = BTreeMap::new(alloc);
    let mut numbered = Vec::new(alloc);
    for root in roots {
        let number = number_of(space, &mut nodes, &mut numbers, 0, *root)?;
        numbered.push(number)?;
    }
    Ok(NodeList {
        nodes: Items::of(nodes),
        roots: Items::of(numbered),
    })
}

/// The number of a set, which is numbered with its parts if it is new. The set depends on no option before `first`.
fn number_of<S: Space>(
    space: &S,
    nodes: &mut Vec<Node>,
    numbers: &mut BTreeMap<S::Id, u64>,
    first: u32,
    id: S::Id,
) -> Result<u64, AllocError>
    requires known { IsKnown (S.sets space.now) id }
    requires free { IsFreeBelow (S.sets space.now) id first }
    requires options { first ≤ (S.sets space.now).options }
    requires listed { IsListed (S.sets space.now) nodes.old.items (get S.Id.cmp numbers.old) }
    ensures { IfOk result (IsNumberingStep (S.sets space.now) first id nodes.old.items nodes.new.items (get S.Id.cmp numbers.old) (get S.Id.cmp numbers.new)) }
{
    if let Some(number) = numbers.get(&id) {
        return Ok(*number);
    }
    match space.top(id) {
        None => Ok(end_number(space, id)),
        Some(top) => {
            let low = number_of(space, nodes, numbers, top.0 + 1, top.1)?;
            let high = number_of(space, nodes, numbers, top.0 + 1, top.2)?;
            let number = nodes.len() as u64 + 2;
            nodes.push(Node {
                option: top.0,
                low,
                high,
            })?;
            numbers.insert(id, number)?;
            Ok(number)
        }
    }
}

/// The number of never or always.
fn end_number<S: Space>(space: &S, id: S::Id) -> u64
    requires { IsKnown (S.sets space.now) id }
    ensures never { id ≡ (S.sets space.now).never → result ≡ 0 }
    ensures always { id ≢ (S.sets space.now).never → result ≡ 1 }
{
    if space.is_never(id) { 0 } else { 1 }
}
