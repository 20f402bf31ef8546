//! The command `verify`: reads the model, lists the folder, reads the classes, links them, and infers the types of each method.

ghost use Rattle.std.specs.Prelude.{◌≡◌, ◌≤◌, All, IfOk, IfErr, MatchResult, length, true};
ghost use Rattle.std.specs.List.{list_all};
ghost use Rattle.vx_class.specs.File.{Holds};
ghost use Rattle.vx_java.specs.Ids.{HasClassNumbers};
ghost use Rattle.vx_model.specs.Models.{IsModel};
ghost use Rattle.vx_plans.specs.Job.{IsNoProgram};
ghost use Rattle.vx_plans.specs.KeepsFiles.{KeepsFiles};
ghost use Rattle.vx_plans.specs.Plan.{MayGive, MayStop, done_with};
ghost use Rattle.vx_plans.specs.Verdicts.{IsVerdictText, refused_text, verdict_text};
ghost use Rattle.vx_run_commands.specs.Verify.{IsVerdictOf, verify_plan};
ghost use Rattle.vx_types.specs.Ranked.{HasRanks};
ghost use Rattle.vx_verify.specs.Verdict.{has_short_code};

use crate::words::VerifyWords;
use std::alloc::{AllocError, Global};
use vx_class::ClassFile;
use vx_inputs::{program_in, read_any_model, read_folder};
use vx_io::Files;
use vx_link::Program;
use vx_model::Model;
use vx_plans::Status;
use vx_program_bounds::linked_are_bounded;
use vx_references::method_name;
use vx_report::put_spelled;
use vx_sound_classes::linked_have_ranks;
use vx_value::MethodId;
use vx_verify::{Verdict, verify};
use vx_words::WORD;

/// The line of the first method that has no typing.
fn refused_text(alloc: Global, program: &Program, method: MethodId) -> Result<Vec<u8>, AllocError>
    ensures { IfOk result (λ text. text.items ≡ refused_text program.now method.0) }
{
    let name = method_name(alloc, program, method)?;
    let mut text = Vec::from_slice(alloc, b"refused ")?;
    put_spelled(&mut text, WORD, name.bytes())?;
    text.push(b'\n')?;
    Ok(text)
}

/// The line of a verdict.
fn verdict_text(alloc: Global, program: &Program, verdict: Verdict) -> Result<Vec<u8>, AllocError>
    ensures { IfOk result (λ text. text.items ≡ verdict_text program.now verdict) }
{
    match verdict {
        Verdict::Yes => Vec::from_slice(alloc, b"verified\n"),
        Verdict::No { method } => refused_text(alloc, program, method),
    }
}

/// The text of the verdict over a program.
fn judged(alloc: Global, program: &Program) -> Result<Vec<u8>, Status>
    requires classes { HasClassNumbers program.now }
    requires ranked { HasRanks program.now }
    requires codes { list_all (λ m. has_short_code m.code) program.now.methods ≡ true }
    ensures { MatchResult result (λ text. IsVerdictText program.now text.items) (λ status. status ≡ Status.NoMemory) }
{
    let verdict = verify(alloc, program)?;
    Ok(verdict_text(alloc, program, verdict)?)
}

/// The text of the verdict over the program of a folder's class files, or the refusal of their first fault.
fn verdict_of(
    alloc: Global,
    main: &str,
    model: &Model,
    classes: Vec<ClassFile>,
) -> Result<Vec<u8>, Status>
    requires few { length classes.items ≤ 1024 }
    requires read { All Holds classes.items }
    requires model { IsModel model.now }
    ensures { MatchResult result (λ text. IsVerdictOf main.now model.now classes.items text.items) (IsNoProgram main.now model.now classes.items) }
{
    linked_are_bounded();
    linked_have_ranks();
    let program = program_in(alloc, main, model, classes)?;
    judged(alloc, &program)
}

/// The text of `verify`.
pub fn verification<F: Files>(
    alloc: Global,
    files: &mut F,
    words: VerifyWords<'_>,
) -> Result<Vec<u8>, Status>
    ensures ok { IfOk result (λ text. MayGive (F.seen files.old).held (F.seen files.old).faults (F.seen files.new).faults
        (verify_plan words.entry.folder.now words.entry.model.now words.entry.main.now) (done_with text.items)) }
    ensures err { IfErr result (λ status. MayStop (F.seen files.old) (F.seen files.new)
        (verify_plan words.entry.folder.now words.entry.model.now words.entry.main.now) status) }
    ensures keeps { KeepsFiles (F.seen files.old) (F.seen files.new) }
{
    let model = read_any_model(alloc, files, words.model)?;
    let classes = read_folder(alloc, files, words.folder)?;
    verdict_of(alloc, words.main, &model, classes)
}
