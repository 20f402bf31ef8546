//! Nodes of a tally, and the edges between them.

ghost use Rattle.std.specs.Prelude.{◌≡◌, ◌+◌, ◌-◌, ◌^◌, min};

/// An edge of a diagram: what it adds, and the place to which it leads. Place 0 is the end, which adds nothing, and the nodes of a list have
/// the places from 1 on.
#[derive(Clone, Copy, Debug, PartialEq, Eq, Hash)]
pub struct Edge {
    pub place: usize,
    pub more: u64,
}

impl Edge {
    /// The edge that adds so much more, and at most the greatest number that there is.
    pub(crate) fn raised(self, more: u64) -> Edge
        ensures { result ≡ record { place = self.place; more = min (self.more + more) (2 ^ 64 - 1) } }
    {
        Edge {
            place: self.place,
            more: self.more.saturating_add(more),
        }
    }

    /// The edge that adds so much less.
    pub(crate) fn lowered(self, less: u64) -> Edge
        ensures { result ≡ record { place = self.place; more = self.more - less } }
    {
        Edge {
            place: self.place,
            more: self.more.saturating_sub(less),
        }
    }
}

/// A node: the option that it asks, and the edges to take with it off and on. One of the two adds nothing.
#[derive(Clone, Copy, Debug, PartialEq, Eq, Hash)]
pub struct TallyNode {
    pub option: u32,
    pub low: Edge,
    pub high: Edge,
}
