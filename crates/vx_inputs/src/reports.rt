//! Reading a report, for each command that asks one.

ghost use Rattle.std.specs.Prelude.{◌≡◌, List, [], IfOk, IfErr, length, map, string_bytes};
ghost use Rattle.std.specs.List.{AllByRecursion};
ghost use Rattle.vx_report.specs.declared.report.Report as report;
ghost use Rattle.vx_report_reader.specs.Lawful.{IsLawful};
ghost use Rattle.vx_report_reader.specs.Rules.{ReportText};
ghost use Rattle.vx_plans.specs.KeepsFiles.{KeepsFiles};
ghost use Rattle.vx_plans.specs.Plan.{IsRefused, Leads, MayStop, Plan};
ghost use Rattle.vx_inputs.specs.Reports.{read_report, read_reports};

use crate::reading::read_file;
use std::alloc::Global;
use vx_io::Files;
use vx_plans::Status;
use vx_report::Report;
use vx_report_reader::{ReportFault, read_report};

/// The most bytes of a report.
const MOST_REPORT_BYTES: u64 = 268_435_456;

/// The report that bytes spell, or the refusal of its first bad line.
fn report_in(alloc: Global, bytes: &[u8]) -> Result<Report, Status>
    ensures ok { IfOk result (λ report. ReportText bytes.now report) }
    ensures lawful { IfOk result IsLawful }
    ensures err { IfErr result (λ status. IsRefused bytes.now status) }
{
    match read_report(alloc, bytes) {
        Ok(report) => Ok(report),
        Err(ReportFault::NoMemory) => Err(Status::NoMemory),
        Err(ReportFault::Line { line }) => Err(Status::BadReport { line }),
    }
}

/// Reads the report of a file.
pub fn read_report_file<F: Files>(
    alloc: Global,
    files: &mut F,
    path: &str,
) -> Result<Report, Status>
    ensures ok { IfOk result (λ found. (next : report.Report → Plan) →
        Leads (F.seen files.old).held (read_report path.now next) (next found)) }
    ensures lawful { IfOk result IsLawful }
    ensures err { IfErr result (λ status. (next : report.Report → Plan) →
        MayStop (F.seen files.old) (F.seen files.new) (read_report path.now next) status) }
    ensures keeps { KeepsFiles (F.seen files.old) (F.seen files.new) }
{
    let bytes = read_file(alloc, files, MOST_REPORT_BYTES, path, path)?;
    report_in(alloc, bytes.as_slice())
}

/// Reads the reports of files, one after the other.
pub fn read_report_files<F: Files>(
    alloc: Global,
    files: &mut F,
    paths: &[String],
) -> Result<Vec<Report>, Status>
    ensures ok { IfOk result (λ found. (next : List report.Report → Plan) →
        Leads (F.seen files.old).held (read_reports next [] (map string_bytes paths.now)) (next found.items)) }
    ensures lawful { IfOk result (λ found. AllByRecursion IsLawful found.items) }
    ensures count { IfOk result (λ found. length found.items ≡ length paths.now) }
    ensures err { IfErr result (λ status. (next : List report.Report → Plan) →
        MayStop (F.seen files.old) (F.seen files.new) (read_reports next [] (map string_bytes paths.now)) status) }
    ensures keeps { KeepsFiles (F.seen files.old) (F.seen files.new) }
{
    let mut found = Vec::new(alloc);
    for path in paths {
        let report = read_report_file(alloc, files, path.as_str())?;
        found.push(report)?;
    }
    Ok(found)
}
