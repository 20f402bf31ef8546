//! Reports read from their text, line by line.

ghost use Rattle.std.specs.Prelude.{◌≡◌, IfOk, IfErr};
ghost use Rattle.vx_report_reader.specs.declared.reading.ReportFault.TheVariants.{NoMemory};
ghost use Rattle.vx_report_reader.specs.Lawful.{IsLawful};
ghost use Rattle.vx_report_reader.specs.Rules.{ReportText};
ghost use Rattle.vx_report_reader.specs.Reading.{IsOnlyReading, Faults, IsCutOff, IsRefused};

use crate::stage::{Stage, whole_report, with_text};
use std::alloc::{AllocError, Global};
use thiserror::Error;
use vx_report::Report;
use vx_report_line::first_line;

/// Why no report is given: want of memory, or the first bad line, from 1 on.
#[derive(Clone, Copy, Debug, PartialEq, Eq, Error)]
pub enum ReportFault {
    #[error("out of memory")]
    NoMemory,
    #[error("line {line}")]
    Line { line: u64 },
}

impl From<AllocError> for ReportFault {
    ghost from_gives = { λ _ e. e ≡ NoMemory };

    fn from(_error: AllocError) -> ReportFault {
        ReportFault::NoMemory
    }
}

/// The report that lines spell, or the first of them that is bad.
fn report_in(alloc: Global, bytes: &[u8]) -> Result<Report, ReportFault>
    ensures found { IfOk result (ReportText bytes.now) }
    ensures fault { IfErr result (Faults bytes.now) }
{
    let mut stage = Stage::Nothing;
    let mut rest = bytes;
    let mut line: u64 = 1;
    while let Some((text, after)) = first_line(rest) {
        let Some(next) = with_text(alloc, stage, text)? else {
            return Err(ReportFault::Line { line });
        };
        stage = next;
        rest = after;
        line += 1;
    }
    if !rest.is_empty() {
        return Err(ReportFault::Line { line });
    }
    let Some(report) = whole_report(stage) else {
        return Err(ReportFault::Line { line });
    };
    Ok(report)
}

/// The report that a text spells, or the first line that breaks a rule. A line that is missing is bad at the place where
/// it should stand, so a report without its last line is bad behind its last line, and an unused node at `done`.
pub fn read_report(alloc: Global, bytes: &[u8]) -> Result<Report, ReportFault>
    // The bytes are the text of the report, which is lawful.
    ensures found { IfOk result (ReportText bytes.now) }
    ensures lawful { IfOk result IsLawful }
    ensures fault { IfErr result (Faults bytes.now) }
    // Where the bytes are the text of a report, or a line is the first bad one, just that is the answer, unless memory runs
    // out.
    ensures only { IsOnlyReading bytes.now result }
    // A report that was cut off is none.
    ensures cut { IsCutOff bytes.now → IsRefused bytes.now result }
{
    report_in(alloc, bytes)
}
