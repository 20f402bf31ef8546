//! Pieces of output.

ghost use Rattle.vx_findings.specs.Orders.{piece_cmp, piece_total, piece_exact};

use crate::ranked::Ranked;
use std::cmp::Ordering;
use vx_value::{Name, Stream};

/// A text that was written on a stream.
#[derive(Debug, Drop)]
pub struct Piece {
    pub stream: Stream,
    pub text: Name,
}

/// What was written on `out` is before what was written on `err`; then texts go by their bytes, a prefix first.
impl Ranked for Piece {
    ghost order = { piece_cmp };

    fn compare(&self, other: &Piece) -> Ordering {
        self.stream
            .cmp(&other.stream)
            .then(self.text.bytes().cmp(other.text.bytes()))
    }

    ghost total = { piece_total };

    ghost exact = { piece_exact };
}
