//! The commands `run` and `watch`: they read the model, list the folder, read the classes, run the program, and make the report; `watch`
//! tells meanwhile how far the runs have come.

ghost use Rattle.std.specs.Prelude.{◌≡◌, ◌<◌, ◌≤◌, ◌⊎◌, All, IfOk, IfErr, List, MatchResult, length, ℕ};
ghost use Rattle.vx_class.specs.File.{Holds};
ghost use Rattle.vx_java.specs.Report.{lock_report};
ghost use Rattle.vx_java.specs.Step.{Config};
ghost use Rattle.vx_lockstep.specs.Findings.{AreAllowed, AreFindings, report_by};
ghost use Rattle.vx_model.specs.Models.{is_allowed};
ghost use Rattle.vx_reporting.specs.Reported.{IsReportable};
ghost use Rattle.vx_starting.specs.Starting.{MayStart};
ghost use Rattle.vx_plans.specs.Job.{IsModeled, IsNoProgram, IsReportOf, IsTextOf, Report, names_of};
ghost use Rattle.vx_plans.specs.KeepsFiles.{KeepsFiles};
ghost use Rattle.vx_plans.specs.Plan.{MayGive, MayStop, done_with};
ghost use Rattle.vx_run_commands.specs.Run.{HasTold, run_plan};

use crate::words::RunWords;
use std::alloc::Global;
use vx_bdd::BddSpace;
use vx_class::ClassFile;
use vx_engine::run_with;
use vx_inputs::{Modeled, names_of, program_in, read_folder, read_model_file};
use vx_io::{Files, Sink};
use vx_link::Program;
use vx_lockstep::Findings;
use vx_model::Model;
use vx_plans::Status;
use vx_program_bounds::linked_are_bounded;
use vx_reporting::report_findings;
use vx_sched::LeastKey;
use vx_space::{Space, SpaceFault};
use vx_spelled_ends::{linked_are_sound, reports_are_spelled};
use vx_watch::run_watched;

/// What the runs of a program come to. Where they are watched it is told meanwhile how far they have come, else nothing is written.
fn findings_of<E: Sink>(
    alloc: Global,
    words: RunWords<'_>,
    space: &mut BddSpace,
    allowed: <BddSpace as Space>::Id,
    program: &Program,
    err: &mut E,
) -> Result<Findings<BddSpace>, SpaceFault>
    requires { MayStart program.now (⟦<BddSpace as Space>⟧.sets space.old) allowed words.limit }
    ensures findings { IfOk result (AreFindings program.now (⟦<BddSpace as Space>⟧.sets space.new) ((⟦<BddSpace as Space>⟧.sets space.old).test allowed) words.entry.limit) }
    ensures lockstep { IfOk result (λ f. (list : List Config) (version : ℕ) → AreAllowed (⟦<BddSpace as Space>⟧.sets space.old).options ((⟦<BddSpace as Space>⟧.sets space.old).test allowed) list →
        lock_report program.now list words.entry.limit version ≡ report_by (⟦<BddSpace as Space>⟧.sets space.new) list words.entry.limit version f) }
    ensures options { IfOk result (λ _. (⟦<BddSpace as Space>⟧.sets space.new).options ≡ (⟦<BddSpace as Space>⟧.sets space.old).options) }
    ensures told { HasTold words.entry.watched (E.seen err.old) (E.seen err.new) }
{
    if words.watched {
        return run_watched(
            alloc,
            program,
            space,
            allowed,
            words.limit,
            &mut LeastKey,
            err,
        );
    }
    run_with(alloc, program, space, allowed, words.limit, &mut LeastKey)
}

/// The text of the report of a program's runs in the configurations that its model allows. Where there is none, memory was wanting.
fn report_of_program<E: Sink>(
    alloc: Global,
    words: RunWords<'_>,
    model: &Model,
    space: &mut BddSpace,
    allowed: <BddSpace as Space>::Id,
    program: &Program,
    err: &mut E,
) -> Result<Vec<u8>, Status>
    requires start { MayStart program.now (⟦<BddSpace as Space>⟧.sets space.old) allowed words.limit }
    requires modeled { IsModeled model.now (⟦<BddSpace as Space>⟧.sets space.old) allowed }
    requires reportable { IsReportable words.version (names_of model.now) words.limit (is_allowed model.now) program.now }
    ensures text { MatchResult result
        (λ text. IsTextOf (Report words.entry.version model.now words.entry.limit program.now) text.items) (λ status. status ≡ Status.NoMemory) }
    ensures told { HasTold words.entry.watched (E.seen err.old) (E.seen err.new) }
{
    let names = names_of(alloc, model)?;
    let findings = findings_of(alloc, words, space, allowed, program, err)?;
    Ok(report_findings(alloc, space, words.version, names, words.limit, findings)?)
}

/// The text of the report of a folder's class files under a model.
fn report_of<E: Sink>(
    alloc: Global,
    words: RunWords<'_>,
    modeled: Modeled,
    classes: Vec<ClassFile>,
    err: &mut E,
) -> Result<Vec<u8>, Status>
    requires modeled { IsModeled modeled.model (⟦<BddSpace as Space>⟧.sets modeled.space) modeled.allowed }
    requires few { length classes.items ≤ 1024 }
    requires read { All Holds classes.items }
    requires least { 0 < words.limit }
    requires most { words.limit ≤ 1000000000 }
    requires version { (words.version ≡ 1) ⊎ (words.version ≡ 2) }
    ensures text { MatchResult result
        (λ text. IsReportOf words.entry.main.now words.entry.limit words.entry.version modeled.model classes.items text.items)
        (IsNoProgram words.entry.main.now modeled.model classes.items) }
    ensures told { HasTold words.entry.watched (E.seen err.old) (E.seen err.new) }
{
    let Modeled {
        model,
        mut space,
        allowed,
    } = modeled;
    linked_are_bounded();
    linked_are_sound();
    reports_are_spelled();
    let program = program_in(alloc, words.main, &model, classes)?;
    report_of_program(alloc, words, &model, &mut space, allowed, &program, err)
}

/// The text of the report of `run` and `watch`. Lines of `watch` that were written stay where there is no text.
pub fn run_text<F: Files, E: Sink>(
    alloc: Global,
    files: &mut F,
    words: RunWords<'_>,
    err: &mut E,
) -> Result<Vec<u8>, Status>
    requires least { 0 < words.limit }
    requires most { words.limit ≤ 1000000000 }
    requires version { (words.version ≡ 1) ⊎ (words.version ≡ 2) }
    ensures ok { IfOk result (λ text. MayGive (F.seen files.old).held (F.seen files.old).faults (F.seen files.new).faults
        (run_plan words.entry.folder.now words.entry.model.now words.entry.main.now words.entry.limit words.entry.version) (done_with text.items)) }
    ensures err { IfErr result (λ status. MayStop (F.seen files.old) (F.seen files.new)
        (run_plan words.entry.folder.now words.entry.model.now words.entry.main.now words.entry.limit words.entry.version) status) }
    ensures keeps { KeepsFiles (F.seen files.old) (F.seen files.new) }
    ensures told { HasTold words.entry.watched (E.seen err.old) (E.seen err.new) }
{
    let modeled = read_model_file(alloc, files, words.model)?;
    let classes = read_folder(alloc, files, words.folder)?;
    report_of(alloc, words, modeled, classes, err)
}
