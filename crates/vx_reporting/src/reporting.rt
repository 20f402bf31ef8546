//! The report of what all runs have come to.

ghost use Rattle.std.specs.Prelude.{◌≡◌, ◌++◌, ◌<◌, ◌^◌, ℕ, Bool, IfOk, List, [], drop, length, if◌then◌else◌, ◌==◌};
ghost use Rattle.vx_lockstep.specs.Findings.{AreAllowed, AreFindings, report_by};
ghost use Rattle.vx_java.specs.Report.{lock_report};
ghost use Rattle.vx_java.specs.Step.{Config};
ghost use Rattle.vx_link.specs.declared.program.Program.{Program};
ghost use Rattle.vx_standing.specs.State.{shared_ids};
ghost use Rattle.vx_space.specs.Sets.{AreKnown};
ghost use Rattle.vx_reporting.specs.Fitting.{IsFitting};
ghost use Rattle.vx_reporting.specs.Listed.{report_with};
ghost use Rattle.vx_reporting.specs.Reported.{IsOnlyReport, IsReportOf, IsReportable, IsReported};

use crate::lines::{attempts_of, ends_of, pieces_of};
use std::alloc::{AllocError, Global};
use vx_bdd_tools::{Node, NodeList, listing};
use vx_list::Items;
use vx_lockstep::Findings;
use vx_report::{Report, write_report};
use vx_space::Space;
use vx_standing::sets_out;
use vx_value::Name;

/// The sets of the findings that a report of a version shows: those of texts, of ends, and in version 2 of numbers of
/// attempts.
fn sets_of<S: Space>(
    alloc: Global,
    version: u8,
    findings: &Findings<S>,
) -> Result<Vec<S::Id>, AllocError>
    ensures { IfOk result (λ ids. ids.items ≡ shared_ids findings.now.found ++ (shared_ids findings.now.ends ++ (if version == 2 then shared_ids findings.now.spent else []))) }
{
    let mut ids = Vec::new(alloc);
    sets_out(findings.found.as_slice(), &mut ids)?;
    sets_out(findings.ends.as_slice(), &mut ids)?;
    if version == 2 {
        sets_out(findings.spent.as_slice(), &mut ids)?;
    }
    Ok(ids)
}

/// What stands behind so many numbers.
fn behind(numbers: &[u64], count: usize) -> &[u64]
    ensures { result.now ≡ drop count numbers.now }
{
    numbers.get(count..).unwrap_or(&[])
}

/// A list of nodes is shorter than 2^63, and a number of rounds below 2^128.
fn counts_fit(nodes: &[Node], rounds: u128)
    ensures nodes { length nodes.now < 2 ^ 63 }
    ensures rounds { rounds < 2 ^ 128 }
{
    let _len = nodes.len();
}

/// The report of findings whose sets have these nodes and numbers.
fn report_with<S: Space>(
    alloc: Global,
    version: u8,
    options: Items<Name>,
    limit: u64,
    findings: Findings<S>,
    list: NodeList,
) -> Result<Report, AllocError>
    ensures report { IfOk result (λ report. report ≡ report_with version options limit findings list.nodes list.roots) }
    ensures fits { IfOk result IsFitting }
{
    let Findings {
        rounds,
        found,
        ends,
        spent,
    } = findings;
    counts_fit(list.nodes.as_slice(), rounds);
    let numbers = list.roots.as_slice();
    let ends_from = found.len();
    let attempts_from = ends_from.saturating_add(ends.len());
    let pieces = pieces_of(alloc, found, numbers)?;
    let ends = ends_of(alloc, ends, behind(numbers, ends_from))?;
    let attempts = if version == 2 {
        attempts_of(alloc, spent, behind(numbers, attempts_from))?
    } else {
        Vec::new(alloc)
    };
    Ok(Report {
        version,
        options,
        limit,
        rounds,
        nodes: list.nodes,
        pieces: Items::of(pieces),
        ends: Items::of(ends),
        attempts: Items::of(attempts),
    })
}

/// The report of findings, in version 1 or 2, with these options and the limit of attempts.
pub fn found_report<S: Space>(
    alloc: Global,
    space: &S,
    version: u8,
    options: Items<Name>,
    limit: u64,
    findings: Findings<S>,
) -> Result<Report, AllocError>
    requires options { length options ≡ (S.sets space.now).options }
    requires known { AreKnown (S.sets space.now) (shared_ids findings.found ++ (shared_ids findings.ends ++ shared_ids findings.spent)) }
    ensures { IfOk result (λ report. (program : Program) (is_allowed : Config → Bool) →
        IsReportable version options limit is_allowed program →
        AreFindings program (S.sets space.now) is_allowed limit findings →
        ((list : List Config) (version : ℕ) → AreAllowed (S.sets space.now).options is_allowed list → lock_report program list limit version ≡ report_by (S.sets space.now) list limit version findings) →
        IsReportOf version options limit is_allowed program report) }
{
    let ids = sets_of(alloc, version, &findings)?;
    let list = listing(alloc, space, ids.as_slice())?;
    let report = report_with(alloc, version, options, limit, findings, list)?;
    Ok(report)
}

/// The text of the report of findings, in version 1 or 2, with these options and the limit of attempts.
pub fn report_findings<S: Space>(
    alloc: Global,
    space: &S,
    version: u8,
    options: Items<Name>,
    limit: u64,
    findings: Findings<S>,
) -> Result<Vec<u8>, AllocError>
    requires options { length options ≡ (S.sets space.now).options }
    requires known { AreKnown (S.sets space.now) (shared_ids findings.found ++ (shared_ids findings.ends ++ shared_ids findings.spent)) }
    ensures reported { IfOk result (λ text. (program : Program) (is_allowed : Config → Bool) →
        IsReportable version options limit is_allowed program →
        AreFindings program (S.sets space.now) is_allowed limit findings →
        ((list : List Config) (version : ℕ) → AreAllowed (S.sets space.now).options is_allowed list → lock_report program list limit version ≡ report_by (S.sets space.now) list limit version findings) →
        IsReported version options limit is_allowed program text.items) }

    // No other text is the report of the program, whatever the space and the picker: the nodes are numbered in one way, and
    // what they hold is what lockstep says.
    ensures only { IfOk result (λ text. (program : Program) (is_allowed : Config → Bool) →
        IsReported version options limit is_allowed program text.items → IsOnlyReport version options limit is_allowed program text.items) }
{
    let report = found_report(alloc, space, version, options, limit, findings)?;
    write_report(alloc, &report)
}
