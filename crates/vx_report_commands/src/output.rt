//! The command `output`: reads a report, and gives what one configuration prints on a stream.

ghost use Rattle.std.specs.Prelude.{◌≡◌, ◌⊎◌, Ok, Err, IfOk, IfErr, MatchResult};
ghost use Rattle.vx_plans.specs.KeepsFiles.{KeepsFiles};
ghost use Rattle.vx_plans.specs.Plan.{MayGive, MayStop, done_with};
ghost use Rattle.vx_report_commands.specs.Output.{output_plan, printed};

use crate::words::OutputWords;
use std::alloc::Global;
use vx_configuration::configuration_of;
use vx_count::output_text;
use vx_inputs::read_report_file;
use vx_io::Files;
use vx_plans::Status;
use vx_report::Report;
use vx_value::Stream;

/// What the configuration that a word names prints on a stream.
fn printed(alloc: Global, report: &Report, stream: Stream, word: &str) -> Result<Vec<u8>, Status>
    ensures { MatchResult result (λ text. printed report.now stream word.now ≡ Ok text.items)
        (λ status. (status ≡ Status.NoMemory) ⊎ (printed report.now stream word.now ≡ Err status)) }
{
    let Some(c) = configuration_of(alloc, report.options.as_slice(), word.as_bytes())? else {
        return Err(Status::NotAllowed);
    };
    match output_text(alloc, report, stream, &c)? {
        Some(text) => Ok(text),
        None => Err(Status::NotAllowed),
    }
}

/// The bytes that a configuration of a report's file prints on a stream.
pub fn output_of<F: Files>(
    alloc: Global,
    files: &mut F,
    words: OutputWords<'_>,
) -> Result<Vec<u8>, Status>
    ensures ok { IfOk result (λ text. MayGive (F.seen files.old).held (F.seen files.old).faults (F.seen files.new).faults
        (output_plan words.entry.report.now words.entry.configuration.now words.entry.stream) (done_with text.items)) }
    ensures err { IfErr result (λ status. MayStop (F.seen files.old) (F.seen files.new)
        (output_plan words.entry.report.now words.entry.configuration.now words.entry.stream) status) }
    ensures keeps { KeepsFiles (F.seen files.old) (F.seen files.new) }
{
    let report = read_report_file(alloc, files, words.report)?;
    printed(alloc, &report, words.stream, words.configuration)
}
