//! The command `load`: makes the workload of a seed and a number of options, runs it, and makes the summary of the report.

ghost use Rattle.std.specs.Prelude.{◌≡◌, ◌≤◌, MatchResult};
ghost use Rattle.vx_model.specs.Models.{is_allowed};
ghost use Rattle.vx_reporting.specs.Reported.{IsReportOf, IsReportable};
ghost use Rattle.vx_starting.specs.Starting.{MayStart};
ghost use Rattle.vx_plans.specs.Job.{IsModeled, names_of};
ghost use Rattle.vx_plans.specs.Load.{IsSummary, load_model, load_program};

use std::alloc::Global;
use vx_bdd::BddSpace;
use vx_engine::run_with;
use vx_gen::{WorkFiles, workload};
use vx_inputs::{Modeled, allowing_model, names_of, program_in};
use vx_link::Program;
use vx_plans::Status;
use vx_program_bounds::linked_are_bounded;
use vx_report::Report;
use vx_reporting::found_report;
use vx_sched::LeastKey;
use vx_space::Space;
use vx_spelled_ends::{linked_are_sound, reports_are_spelled};
use vx_summary::summary_text;
use vx_work_laws::work_is_lawful;

/// The report of a program's runs in the configurations that its model allows. Where there is none, memory was wanting.
fn report_of_work(alloc: Global, modeled: Modeled, program: &Program) -> Result<Report, Status>
    requires start { MayStart program.now (⟦<BddSpace as Space>⟧.sets modeled.space) modeled.allowed 1000000 }
    requires modeled { IsModeled modeled.model (⟦<BddSpace as Space>⟧.sets modeled.space) modeled.allowed }
    requires reportable { IsReportable 1 (names_of modeled.model) 1000000 (is_allowed modeled.model) program.now }
    ensures { MatchResult result (λ report. IsReportOf 1 (names_of modeled.model) 1000000 (is_allowed modeled.model) program.now report)
        (λ status. status ≡ Status.NoMemory) }
{
    let Modeled {
        model,
        mut space,
        allowed,
    } = modeled;
    let names = names_of(alloc, &model)?;
    let findings = run_with(
        alloc,
        program,
        &mut space,
        allowed,
        1_000_000,
        &mut LeastKey,
    )?;
    Ok(found_report(alloc, &space, 1, names, 1_000_000, findings)?)
}

/// The report of the workload's runs.
fn work_report(alloc: Global, seed: u64, options: u32) -> Result<Report, Status>
    requires least { 1 ≤ options }
    requires most { options ≤ 64 }
    ensures { MatchResult result (λ report. IsReportOf 1 (names_of (load_model options)) 1000000 (is_allowed (load_model options)) (load_program seed options) report)
        (λ status. status ≡ Status.NoMemory) }
{
    work_is_lawful();
    linked_are_bounded();
    linked_are_sound();
    reports_are_spelled();
    let work = workload(alloc, seed, options)?;
    let WorkFiles { classes, model } = work;
    let program = program_in(alloc, "Main", &model, classes)?;
    let found = allowing_model(alloc, model)?;
    report_of_work(alloc, found, &program)
}

/// The text of `load`.
pub fn load_text(alloc: Global, seed: u64, options: u32) -> Result<Vec<u8>, Status>
    requires least { 1 ≤ options }
    requires most { options ≤ 64 }
    ensures { MatchResult result (λ text. IsSummary seed options text.items) (λ status. status ≡ Status.NoMemory) }
{
    let report = work_report(alloc, seed, options)?;
    Ok(summary_text(alloc, seed, &report)?)
}
