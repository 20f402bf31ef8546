//! The command `project`: reads a report, and gives what it says of one configuration.

ghost use Rattle.std.specs.Prelude.{◌≡◌, ◌⊎◌, Ok, Err, IfOk, IfErr, MatchResult};
ghost use Rattle.vx_plans.specs.KeepsFiles.{KeepsFiles};
ghost use Rattle.vx_plans.specs.Plan.{MayGive, MayStop, done_with};
ghost use Rattle.vx_report_commands.specs.Project.{projected, project_plan};

use crate::words::ProjectWords;
use std::alloc::Global;
use vx_configuration::configuration_of;
use vx_inputs::read_report_file;
use vx_io::Files;
use vx_plans::Status;
use vx_report::{Report, project_text};

/// What a report says of the configuration that a word names.
fn projected(alloc: Global, report: &Report, word: &str) -> Result<Vec<u8>, Status>
    ensures { MatchResult result (λ text. projected report.now word.now ≡ Ok text.items)
        (λ status. (status ≡ Status.NoMemory) ⊎ (projected report.now word.now ≡ Err status)) }
{
    let Some(c) = configuration_of(alloc, report.options.as_slice(), word.as_bytes())? else {
        return Err(Status::NotAllowed);
    };
    match project_text(alloc, report, &c)? {
        Some(text) => Ok(text),
        None => Err(Status::NotAllowed),
    }
}

/// The text of the projection of a report at a configuration.
pub fn projection<F: Files>(
    alloc: Global,
    files: &mut F,
    words: ProjectWords<'_>,
) -> Result<Vec<u8>, Status>
    ensures ok { IfOk result (λ text. MayGive (F.seen files.old).held (F.seen files.old).faults (F.seen files.new).faults
        (project_plan words.entry.report.now words.entry.configuration.now) (done_with text.items)) }
    ensures err { IfErr result (λ status. MayStop (F.seen files.old) (F.seen files.new)
        (project_plan words.entry.report.now words.entry.configuration.now) status) }
    ensures keeps { KeepsFiles (F.seen files.old) (F.seen files.new) }
{
    let report = read_report_file(alloc, files, words.report)?;
    projected(alloc, &report, words.configuration)
}
