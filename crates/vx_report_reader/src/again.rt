//! What is written is read to the same report.

ghost use Rattle.vx_report_reader.specs.Lawful.{IsLawful};
ghost use Rattle.vx_report_reader.specs.Reading.{IsReadAs};

use crate::reading::{ReportFault, read_report};
use std::alloc::Global;
use vx_report::{Report, write_report};

/// A lawful report, written and read: the same report, unless memory runs out.
pub fn read_written(alloc: Global, report: &Report) -> Result<Report, ReportFault>
    requires { IsLawful report.now }
    ensures { IsReadAs report.now result }
{
    let text = write_report(alloc, report)?;
    read_report(alloc, text.as_slice())
}
