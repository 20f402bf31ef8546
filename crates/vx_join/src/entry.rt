//! The lines of a report that stand for values.

ghost use Rattle.std.specs.Prelude.{◌≡◌, ℕ, List, IfOk};
ghost use Rattle.vx_report.specs.declared.report.Report.{Report};
ghost use Rattle.vx_join.specs.Steps.{attempts_line, end_line, piece_line};

use crate::copies::{copied_end, copied_name};
use std::alloc::{AllocError, Global};
use vx_findings::{Piece, Ranked};
use vx_report::{AttemptLine, EndLine, Piece as PieceLine, Report};
use vx_value::End;

/// A line of a report that stands for a value, with the node of the configurations that have it.
pub trait Entry: Drop {
    type Value: Ranked + Drop;

    /// The report's lines of this kind, in order.
    ghost all_of: { Report → List Self };

    ghost node_of: { Self → ℕ };

    ghost value_of: { Self → Self.Value };

    ghost line: { ℕ → Self.Value → Self };

    /// The report's lines of this kind.
    fn all(report: &Report) -> &[Self]
        ensures { result.now ≡ all_of report.now };

    /// Its node.
    fn node(&self) -> u64
        ensures { result ≡ node_of self.now };

    /// A copy of its value.
    fn value(&self, alloc: Global) -> Result<Self::Value, AllocError>
        ensures { IfOk result (λ value. value ≡ value_of self.now) };

    /// The line of a value and a node.
    fn of(node: u64, value: Self::Value) -> Self
        ensures { result ≡ line node value };
}

impl Entry for PieceLine {
    type Value = Piece;

    ghost all_of = { λ report. report.pieces };

    ghost node_of = { λ piece. piece.node };

    ghost value_of = { λ piece. record { stream = piece.stream; text = piece.text } };

    ghost line = { piece_line };

    fn all(report: &Report) -> &[PieceLine] {
        report.pieces.as_slice()
    }

    fn node(&self) -> u64 {
        self.node
    }

    fn value(&self, alloc: Global) -> Result<Piece, AllocError> {
        let text = copied_name(alloc, &self.text)?;
        Ok(Piece {
            stream: self.stream,
            text,
        })
    }

    fn of(node: u64, value: Piece) -> PieceLine {
        let Piece { stream, text } = value;
        PieceLine { node, stream, text }
    }
}

impl Entry for EndLine {
    type Value = End;

    ghost all_of = { λ report. report.ends };

    ghost node_of = { λ line. line.node };

    ghost value_of = { λ line. line.end };

    ghost line = { end_line };

    fn all(report: &Report) -> &[EndLine] {
        report.ends.as_slice()
    }

    fn node(&self) -> u64 {
        self.node
    }

    fn value(&self, alloc: Global) -> Result<End, AllocError> {
        copied_end(alloc, &self.end)
    }

    fn of(node: u64, value: End) -> EndLine {
        EndLine { node, end: value }
    }
}

impl Entry for AttemptLine {
    type Value = u64;

    ghost all_of = { λ report. report.attempts };

    ghost node_of = { λ line. line.node };

    ghost value_of = { λ line. line.attempts };

    ghost line = { attempts_line };

    fn all(report: &Report) -> &[AttemptLine] {
        report.attempts.as_slice()
    }

    fn node(&self) -> u64 {
        self.node
    }

    fn value(&self, _alloc: Global) -> Result<u64, AllocError> {
        Ok(self.attempts)
    }

    fn of(node: u64, value: u64) -> AttemptLine {
        AttemptLine {
            node,
            attempts: value,
        }
    }
}
