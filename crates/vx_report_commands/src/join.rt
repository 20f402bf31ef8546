//! The command `join`: reads several reports over the same options, limit and version, and gives their join.

ghost use Rattle.std.specs.Prelude.{◌≡◌, ◌⊎◌, Some, IfOk, IfErr, MatchResult, map, string_bytes};
ghost use Rattle.std.specs.List.{AllByRecursion, list_all};
ghost use Rattle.vx_report_reader.specs.Lawful.{IsLawful};
ghost use Rattle.vx_report_commands.specs.Join.{GivesJoin, are_like, join_plan, unjoined};
ghost use Rattle.vx_plans.specs.KeepsFiles.{KeepsFiles};
ghost use Rattle.vx_plans.specs.Plan.{MayGive, MayStop, done_with};

use crate::words::JoinWords;
use std::alloc::Global;
use vx_agree::have_same_options;
use vx_bdd::BddSpace;
use vx_inputs::read_report_files;
use vx_io::Files;
use vx_join::join_text;
use vx_plans::Status;
use vx_report::Report;

/// Whether two reports are over the same options, of one limit and one version.
fn are_like(one: &Report, other: &Report) -> bool
    ensures { result ≡ are_like one.now other.now }
{
    have_same_options(one, other) && one.limit == other.limit && one.version == other.version
}

/// Whether all reports are like a first one.
fn are_all_like(first: &Report, others: &[Report]) -> bool
    ensures { result ≡ list_all (are_like first.now) others.now }
{
    others.iter().all(|other| are_like(first, other))
}

/// The text of the join of some reports, or the refusal where they differ or have none.
fn joining(alloc: Global, reports: &[Report]) -> Result<Vec<u8>, Status>
    requires { AllByRecursion IsLawful reports.now }
    ensures { MatchResult result (λ text. GivesJoin reports.now text.items)
        (λ status. (status ≡ Status.NoMemory) ⊎ (unjoined reports.now ≡ Some status)) }
{
    let [first, others @ ..] = reports else {
        return Err(Status::NotJoinable);
    };
    if !are_all_like(first, others) {
        return Err(Status::Unlike);
    }
    let mut space = BddSpace::new(alloc, first.options.len() as u32)?;
    match join_text(alloc, &mut space, first, others)? {
        None => Err(Status::NotJoinable),
        Some(text) => Ok(text),
    }
}

/// The text of the join of the reports of files.
pub fn join_of<F: Files>(
    alloc: Global,
    files: &mut F,
    words: JoinWords<'_>,
) -> Result<Vec<u8>, Status>
    ensures ok { IfOk result (λ text. MayGive (F.seen files.old).held (F.seen files.old).faults (F.seen files.new).faults
        (join_plan (map string_bytes words.entry.reports.now)) (done_with text.items)) }
    ensures err { IfErr result (λ status. MayStop (F.seen files.old) (F.seen files.new)
        (join_plan (map string_bytes words.entry.reports.now)) status) }
    ensures keeps { KeepsFiles (F.seen files.old) (F.seen files.new) }
{
    let reports = read_report_files(alloc, files, words.reports)?;
    joining(alloc, reports.as_slice())
}
