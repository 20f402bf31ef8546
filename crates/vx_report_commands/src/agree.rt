//! The command `agree`: reads two reports over the same options, and gives the configurations at which they say the same.

ghost use Rattle.std.specs.Prelude.{◌≡◌, ◌⊎◌, Some, IfOk, IfErr, MatchResult};
ghost use Rattle.vx_report_reader.specs.Lawful.{IsLawful};
ghost use Rattle.vx_report_commands.specs.Agree.{GivesAgreement, agree_plan, unlike};
ghost use Rattle.vx_plans.specs.KeepsFiles.{KeepsFiles};
ghost use Rattle.vx_plans.specs.Plan.{MayGive, MayStop, done_with};

use crate::words::AgreeWords;
use std::alloc::Global;
use vx_agree::{agreement, agreement_text, have_same_options};
use vx_bdd::BddSpace;
use vx_inputs::read_report_file;
use vx_io::Files;
use vx_plans::Status;
use vx_report::Report;

/// The text of the agreement of two reports, or the refusal where their options differ.
fn agreeing(alloc: Global, one: &Report, other: &Report) -> Result<Vec<u8>, Status>
    requires one { IsLawful one.now }
    requires other { IsLawful other.now }
    ensures { MatchResult result (λ text. GivesAgreement one.now other.now text.items)
        (λ status. (status ≡ Status.NoMemory) ⊎ (unlike one.now other.now ≡ Some status)) }
{
    if !have_same_options(one, other) {
        return Err(Status::Unlike);
    }
    let mut space = BddSpace::new(alloc, one.options.len() as u32)?;
    let set = agreement(alloc, &mut space, one, other)?;
    Ok(agreement_text(alloc, &space, one, set)?)
}

/// The text of the agreement of two reports' files.
pub fn agreement_of<F: Files>(
    alloc: Global,
    files: &mut F,
    words: AgreeWords<'_>,
) -> Result<Vec<u8>, Status>
    ensures ok { IfOk result (λ text. MayGive (F.seen files.old).held (F.seen files.old).faults (F.seen files.new).faults
        (agree_plan words.entry.report.now words.entry.other.now) (done_with text.items)) }
    ensures err { IfErr result (λ status. MayStop (F.seen files.old) (F.seen files.new)
        (agree_plan words.entry.report.now words.entry.other.now) status) }
    ensures keeps { KeepsFiles (F.seen files.old) (F.seen files.new) }
{
    let one = read_report_file(alloc, files, words.report)?;
    let other = read_report_file(alloc, files, words.other)?;
    agreeing(alloc, &one, &other)
}
