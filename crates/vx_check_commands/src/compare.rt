//! The command `compare`: reads two reports, and tells where they differ.

ghost use Rattle.std.specs.Prelude.{◌≡◌, ◌⊎◌, ◌≤◌, Ok, Some, IfOk, IfErr, MatchResult, length};
ghost use Rattle.vx_compare.specs.Names.{all_names};
ghost use Rattle.vx_check_commands.specs.Compare.{GivesComparison, compare_plan, last_of, too_many};
ghost use Rattle.vx_plans.specs.Answers.{said_of};
ghost use Rattle.vx_plans.specs.KeepsFiles.{KeepsFiles};
ghost use Rattle.vx_plans.specs.Plan.{MayGive, MayStop};
ghost use Rattle.vx_report_reader.specs.Lawful.{IsLawful};

use crate::words::CompareWords;
use std::alloc::Global;
use vx_bdd::BddSpace;
use vx_compare::{all_names, compare, compared_text, widened};
use vx_inputs::read_report_file;
use vx_io::Files;
use vx_plans::{Answer, Status};
use vx_report::Report;
use vx_value::Name;

/// The status behind a text that tells of so many configurations that differ.
fn last_of(differ: u128) -> Status
    ensures { result ≡ last_of differ }
{
    if differ == 0 {
        Status::Done
    } else {
        Status::Differing
    }
}

/// The text of the comparison of two reports over the options of both, with the status behind it.
fn compared_over(
    alloc: Global,
    one: Report,
    other: Report,
    names: &[Name],
) -> Result<Answer, Status>
    requires one { IsLawful one }
    requires other { IsLawful other }
    requires names { names.now ≡ all_names one.options other.options }
    requires few { length names.now ≤ 64 }
    ensures { MatchResult result (GivesComparison one other) (λ status. status ≡ Status.NoMemory) }
{
    let mut space = BddSpace::new(alloc, names.len() as u32)?;
    let one = widened(alloc, &mut space, one, names)?;
    let other = widened(alloc, &mut space, other, names)?;
    let compared = compare(alloc, &mut space, &one, &other)?;
    let text = compared_text(alloc, &one, &compared)?;
    Ok(Answer {
        text,
        last: last_of(compared.differ),
    })
}

/// The text of the comparison of two reports, with the status behind it, or the refusal where they have too many options together.
fn comparing(alloc: Global, one: Report, other: Report) -> Result<Answer, Status>
    requires one { IsLawful one }
    requires other { IsLawful other }
    ensures { MatchResult result (GivesComparison one other)
        (λ status. (status ≡ Status.NoMemory) ⊎ (too_many one other ≡ Some status)) }
{
    let names = all_names(alloc, one.options.as_slice(), other.options.as_slice())?;
    if names.len() > 64 {
        return Err(Status::Unlike);
    }
    compared_over(alloc, one, other, names.as_slice())
}

/// The text of the comparison of two reports' files, with the status behind it.
pub fn compare_of<F: Files>(
    alloc: Global,
    files: &mut F,
    words: CompareWords<'_>,
) -> Result<Answer, Status>
    ensures ok { IfOk result (λ answer. MayGive (F.seen files.old).held (F.seen files.old).faults (F.seen files.new).faults
        (compare_plan words.entry.report.now words.entry.other.now) (Ok (said_of answer))) }
    ensures err { IfErr result (λ status. MayStop (F.seen files.old) (F.seen files.new)
        (compare_plan words.entry.report.now words.entry.other.now) status) }
    ensures keeps { KeepsFiles (F.seen files.old) (F.seen files.new) }
{
    let one = read_report_file(alloc, files, words.report)?;
    let other = read_report_file(alloc, files, words.other)?;
    comparing(alloc, one, other)
}
