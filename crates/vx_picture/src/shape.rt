//! What a picture has.

use crate::subject::Subject;
use vx_list::Items;

/// What of a report is drawn: all pieces and ends, the ends alone, or the piece with this number, from 1 on.
#[derive(Clone, Copy, Debug)]
pub enum Drawn {
    All,
    Ends,
    Piece(u64),
}

/// A node: its number, and the option that it asks.
#[derive(Clone, Copy, Debug)]
pub struct Ellipse {
    pub number: u64,
    pub option: u32,
}

/// An edge from a node to a part of it: where it goes with its option on (`high`), or off. Always is number 1; no edge goes to
/// never.
#[derive(Clone, Copy, Debug)]
pub struct Edge {
    pub from: u64,
    pub high: bool,
    pub to: u64,
}

/// A report's diagrams, or a part of them. Nodes that no box needs are left out.
#[derive(Debug, Drop)]
pub struct Picture {
    /// The nodes, by ascending numbers.
    pub ellipses: Items<Ellipse>,
    /// The edges from each node in order, the low one first.
    pub edges: Items<Edge>,
    /// The ends that are not `return`, then `return`, then the pieces, as far as they are drawn, each with an edge to its node.
    pub boxes: Items<Subject>,
}
