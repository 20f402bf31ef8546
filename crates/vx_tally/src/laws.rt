//! What a diagram of numbers has by its rules.

ghost use Rattle.vx_tally.specs.Canonical.{EqualNumbersAreOneEdge};

/// The law of canonical edges: two edges into one list of nodes that have the same number at each configuration are one edge.
pub fn equal_numbers_are_one_edge()
    ensures { EqualNumbersAreOneEdge }
{}
