//! The commands that read a report and tell of it: its interactions, its picture, a cover of it, its explanations, its counts, its first
//! configurations, and a page of it.

ghost use Rattle.std.specs.Prelude.{◌≡◌, ◌⊎◌, Some, IfOk, IfErr, MatchResult};
ghost use Rattle.vx_plans.specs.KeepsFiles.{KeepsFiles};
ghost use Rattle.vx_plans.specs.Plan.{MayGive, MayStop, done_with};
ghost use Rattle.vx_report_commands.specs.Tell.{GivesTelling, tell_plan, untold};
ghost use Rattle.vx_report_reader.specs.Lawful.{IsLawful};

use crate::words::TellWords;
use std::alloc::Global;
use vx_inputs::read_report_file;
use vx_io::Files;
use vx_people::{Telling, told};
use vx_plans::Status;
use vx_report::Report;

/// The text of what a report is asked for, or the refusal where it has no such piece.
fn telling(alloc: Global, asked: Telling, report: &Report) -> Result<Vec<u8>, Status>
    requires { IsLawful report.now }
    ensures { MatchResult result (λ text. GivesTelling asked report.now text.items)
        (λ status. (status ≡ Status.NoMemory) ⊎ (untold asked report.now ≡ Some status)) }
{
    let said = told(alloc, asked, report)?;
    match said {
        Some(text) => Ok(text),
        None => Err(Status::NotAllowed),
    }
}

/// The text of what a report's file is asked for.
pub fn tale_of<F: Files>(
    alloc: Global,
    files: &mut F,
    words: TellWords<'_>,
) -> Result<Vec<u8>, Status>
    ensures ok { IfOk result (λ text. MayGive (F.seen files.old).held (F.seen files.old).faults (F.seen files.new).faults
        (tell_plan words.entry.telling words.entry.report.now) (done_with text.items)) }
    ensures err { IfErr result (λ status. MayStop (F.seen files.old) (F.seen files.new)
        (tell_plan words.entry.telling words.entry.report.now) status) }
    ensures keeps { KeepsFiles (F.seen files.old) (F.seen files.new) }
{
    let report = read_report_file(alloc, files, words.report)?;
    telling(alloc, words.telling, &report)
}
