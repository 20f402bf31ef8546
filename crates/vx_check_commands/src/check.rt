//! The command `check`: reads a report and what is expected of it, and tells which configurations end otherwise.

ghost use Rattle.std.specs.Prelude.{◌≡◌, ◌⊎◌, List, Ok, Err, IfOk, IfErr, MatchResult, length, option_map};
ghost use Rattle.vx_check.specs.Expected.{AreOf};
ghost use Rattle.vx_check.specs.declared.expected.Expectation as check;
ghost use Rattle.vx_check_commands.specs.Check.{GivesCheck, check_plan, expected_in, last_of, read_expected};
ghost use Rattle.vx_plans.specs.Answers.{said_of};
ghost use Rattle.vx_plans.specs.KeepsFiles.{KeepsFiles};
ghost use Rattle.vx_plans.specs.Plan.{Leads, MayGive, MayStop, Plan};
ghost use Rattle.vx_report_reader.specs.Lawful.{IsLawful};

use crate::words::CheckWords;
use std::alloc::Global;
use vx_bdd::BddSpace;
use vx_check::{Expectation, check_report, checked_text, read_expected};
use vx_inputs::{MOST_BYTES, read_file, read_report_file};
use vx_io::Files;
use vx_model::ModelFault;
use vx_plans::{Answer, Status};
use vx_report::Report;

/// What bytes expect of the configurations of a report, or the refusal of the first bad line.
fn expected_in(alloc: Global, report: &Report, bytes: &[u8]) -> Result<Vec<Expectation>, Status>
    requires { IsLawful report.now }
    ensures exact { MatchResult result (λ expected. expected_in report.now bytes.now ≡ Ok expected.items)
        (λ status. (status ≡ Status.NoMemory) ⊎ (expected_in report.now bytes.now ≡ Err status)) }
    ensures of { IfOk result (λ expected. AreOf (length report.now.options) expected.items) }
{
    match read_expected(alloc, report, bytes) {
        Ok(expected) => Ok(expected),
        Err(ModelFault::NoMemory) => Err(Status::NoMemory),
        Err(ModelFault::Line { line, reason }) => Err(Status::BadExpected { line, reason }),
    }
}

/// Reads what a file expects of the configurations of a report.
fn read_expected_file<F: Files>(
    alloc: Global,
    files: &mut F,
    path: &str,
    report: &Report,
) -> Result<Vec<Expectation>, Status>
    requires { IsLawful report.now }
    ensures ok { IfOk result (λ expected. (next : List check.Expectation → Plan) →
        Leads (F.seen files.old).held (read_expected (Some path.now) report.now next) (next expected.items)) }
    ensures of { IfOk result (λ expected. AreOf (length report.now.options) expected.items) }
    ensures err { IfErr result (λ status. (next : List check.Expectation → Plan) →
        MayStop (F.seen files.old) (F.seen files.new) (read_expected (Some path.now) report.now next) status) }
    ensures keeps { KeepsFiles (F.seen files.old) (F.seen files.new) }
{
    let bytes = read_file(alloc, files, MOST_BYTES, path, path)?;
    expected_in(alloc, report, bytes.as_slice())
}

/// The same where a file is given; without one nothing is expected.
fn read_any_expected<F: Files>(
    alloc: Global,
    files: &mut F,
    path: Option<&str>,
    report: &Report,
) -> Result<Vec<Expectation>, Status>
    requires { IsLawful report.now }
    ensures ok { IfOk result (λ expected. (next : List check.Expectation → Plan) →
        Leads (F.seen files.old).held (read_expected (option_map (λ p. p.now) path.entry) report.now next) (next expected.items)) }
    ensures of { IfOk result (λ expected. AreOf (length report.now.options) expected.items) }
    ensures err { IfErr result (λ status. (next : List check.Expectation → Plan) →
        MayStop (F.seen files.old) (F.seen files.new) (read_expected (option_map (λ p. p.now) path.entry) report.now next) status) }
    ensures keeps { KeepsFiles (F.seen files.old) (F.seen files.new) }
{
    match path {
        None => Ok(Vec::new(alloc)),
        Some(path) => read_expected_file(alloc, files, path, report),
    }
}

/// The status behind a text that tells of so many failing configurations.
fn last_of(failing: u128) -> Status
    ensures { result ≡ last_of failing }
{
    if failing == 0 {
        Status::Done
    } else {
        Status::Failing
    }
}

/// The text of the check of a report, with the status behind it.
fn checking(alloc: Global, report: &Report, expected: &[Expectation]) -> Result<Answer, Status>
    requires lawful { IsLawful report.now }
    requires expected { AreOf (length report.now.options) expected.now }
    ensures { MatchResult result (GivesCheck report.now expected.now) (λ status. status ≡ Status.NoMemory) }
{
    let mut space = BddSpace::new(alloc, report.options.len() as u32)?;
    let checked = check_report(alloc, &mut space, report, expected)?;
    let text = checked_text(alloc, report, &checked)?;
    Ok(Answer {
        text,
        last: last_of(checked.failing),
    })
}

/// The text of the check of a report's file, with the status behind it.
pub fn check_of<F: Files>(
    alloc: Global,
    files: &mut F,
    words: CheckWords<'_>,
) -> Result<Answer, Status>
    ensures ok { IfOk result (λ answer. MayGive (F.seen files.old).held (F.seen files.old).faults (F.seen files.new).faults
        (check_plan words.entry.report.now (option_map (λ p. p.now) words.entry.expected)) (Ok (said_of answer))) }
    ensures err { IfErr result (λ status. MayStop (F.seen files.old) (F.seen files.new)
        (check_plan words.entry.report.now (option_map (λ p. p.now) words.entry.expected)) status) }
    ensures keeps { KeepsFiles (F.seen files.old) (F.seen files.new) }
{
    let report = read_report_file(alloc, files, words.report)?;
    let expected = read_any_expected(alloc, files, words.expected, &report)?;
    checking(alloc, &report, expected.as_slice())
}
