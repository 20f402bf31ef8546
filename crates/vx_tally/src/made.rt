//! Nodes that are being made, each once, and copies of those of another tally.

ghost use Rattle.std.specs.Prelude.{◌≡◌, ◌<◌, ◌≤◌, IfOk, IfSome, Some, length, slice_get};
ghost use Rattle.vx_tally.specs.Tally.{level, IsNode, AreNodes};
ghost use Rattle.vx_tally.specs.Made.{IsPut, IsMade, AreCopies, AddsCopy, IsCopied};

use crate::node::{Edge, TallyNode};
use indexmap::IndexSet;
use std::alloc::{AllocError, Global};
use std::marker::Model;

/// Nodes in the order of their places, each once, over so many options.
#[derive(Drop)]
pub(crate) struct Made {
    options: u32,
    nodes: IndexSet<TallyNode>,
}

impl Model for Made {
    ghost use Rattle.vx_tally.specs.Made.{MadeView};

    ghost Value = { MadeView };

    ghost view = { λ made. record { options = made.options; nodes = made.nodes.keys } };
}

impl Made {
    /// No nodes.
    pub(crate) fn new(alloc: Global, options: u32) -> Made
        ensures options { result.options ≡ options }
        ensures nodes { AreNodes options result.nodes }
    {
        Made {
            options,
            nodes: IndexSet::new(alloc),
        }
    }

    /// The nodes.
    pub(crate) fn nodes(&self) -> &[TallyNode]
        ensures { result.now ≡ self.now.nodes }
    {
        self.nodes.as_slice()
    }

    /// The place of a node, which is put behind the others if it is new.
    fn put(&mut self, node: TallyNode) -> Result<usize, AllocError>
        requires nodes { AreNodes self.old.options self.old.nodes }
        requires node { IsNode self.old.options self.old.nodes (length self.old.nodes) node }
        ensures { IfOk result (IsPut node self.old self.new) }
    {
        let (index, _) = self.nodes.insert_full(node)?;
        prove!(index < self.nodes.len());
        Ok(index + 1)
    }

    /// The edge that stands for one of two, by an option before those that they ask. The lesser number is taken out of both.
    pub(crate) fn make(&mut self, option: u32, low: Edge, high: Edge) -> Result<Edge, AllocError>
        requires nodes { AreNodes self.old.options self.old.nodes }
        requires option { option < self.old.options }
        requires low_given { low.place ≤ length self.old.nodes }
        requires high_given { high.place ≤ length self.old.nodes }
        requires low_later { option < level self.old.options self.old.nodes low.place }
        requires high_later { option < level self.old.options self.old.nodes high.place }
        ensures { IfOk result (IsMade option low high self.old self.new) }
    {
        if low == high {
            return Ok(low);
        }
        let more = low.more.min(high.more);
        let place = self.put(TallyNode {
            option,
            low: low.lowered(more),
            high: high.lowered(more),
        })?;
        Ok(Edge { place, more })
    }
}

/// The copy of a place, if it is noted.
fn noted(copies: &[Option<usize>], place: usize) -> Option<usize>
    ensures { IfSome result (λ copy. slice_get copies.now place ≡ Some (Some copy)) }
{
    if place < copies.len() {
        copies[place]
    } else {
        None
    }
}

/// Notes a copy of a place.
fn note(copies: &mut Vec<Option<usize>>, place: usize, copy: usize)
    ensures { AddsCopy place copy copies.old.items copies.new.items }
{
    if place < copies.len() {
        copies[place] = Some(copy);
    }
}

/// The copy of a place among the nodes that are being made. What was copied before is noted by place.
pub(crate) fn copied(
    from: &[TallyNode],
    made: &mut Made,
    copies: &mut Vec<Option<usize>>,
    place: usize,
) -> Result<usize, AllocError>
    requires nodes { AreNodes made.old.options made.old.nodes }
    requires from { AreNodes made.old.options from.now }
    requires copies { AreCopies from.now made.old copies.old.items }
    requires given { place ≤ length from.now }
    ensures { IfOk result (IsCopied from.now place made.old made.new copies.new.items) }
{
    if place == 0 {
        return Ok(0);
    }
    if let Some(copy) = noted(copies.as_slice(), place) {
        return Ok(copy);
    }
    let node = from[place - 1];
    let low = copied(from, made, copies, node.low.place)?;
    let high = copied(from, made, copies, node.high.place)?;
    let edge = made.make(
        node.option,
        Edge {
            place: low,
            more: node.low.more,
        },
        Edge {
            place: high,
            more: node.high.more,
        },
    )?;
    note(copies, place, edge.place);
    Ok(edge.place)
}
