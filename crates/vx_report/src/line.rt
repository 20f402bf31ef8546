//! The lines of a report.

use crate::report::{AttemptLine, EndLine, Piece};
use vx_bdd_tools::Node;
use vx_value::Name;

/// A line of a report.
#[derive(Drop)]
pub enum Line {
    /// `varexj report`, and the version.
    Head { version: u8 },
    /// `options`, and how many there are.
    Count { options: u64 },
    /// `option`, and its name.
    Named(Name),
    /// `limit`, and the greatest number of attempts.
    Limit(u64),
    /// `rounds`, and how many there were.
    Rounds(u128),
    /// `node`, its number, its option, its low and its high part.
    Numbered { id: u64, node: Node },
    /// `out` or `err`, a node, and a text.
    Printed(Piece),
    /// `end`, a node, and an end.
    Ended(EndLine),
    /// `attempts`, a node, and how many.
    Spent(AttemptLine),
    /// `done`.
    Done,
}
