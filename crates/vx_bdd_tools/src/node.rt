//! Lists of node lines, as a report has them.

use vx_list::Items;

/// A node of a list: the option that it asks, and the numbers to go to with it off and on. Never and always have the
/// numbers 0 and 1, and the nodes of a list have the numbers from 2 on (Bryant 1986).
#[derive(Clone, Copy, Debug, PartialEq, Eq, Hash)]
pub struct Node {
    pub option: u32,
    pub low: u64,
    pub high: u64,
}

/// Nodes, and the numbers of some sets among them.
#[derive(Debug, Drop)]
pub struct NodeList {
    pub nodes: Items<Node>,
    pub roots: Items<u64>,
}
