//! The command `doctor`: reads the model, lists the folder, reads the classes and links them, as `run` does, and tells of what it finds.

ghost use Rattle.std.specs.Prelude.{◌≡◌, ◌≤◌, ◌++◌, All, IfOk, List, OnOk, length, map, string_bytes, true, ℕ};
ghost use Rattle.std.specs.List.{list_all};
ghost use Rattle.vx_class.specs.File.{Holds};
ghost use Rattle.vx_doctor_command.specs.Doctor.{doctor_classes, doctor_folder, doctor_model, doctor_paths, doctor_plan, doctor_text};
ghost use Rattle.vx_doctor_command.specs.Saying.{none_line};
ghost use Rattle.vx_doctor_command.specs.Stops.{AreLacks, IsHealthy, IsSaid};
ghost use Rattle.vx_java.specs.Ids.{HasClassNumbers};
ghost use Rattle.vx_model.specs.Models.{IsModel, is_allowed};
ghost use Rattle.vx_overview.specs.Overview.{overview_text};
ghost use Rattle.vx_plans.specs.Answers.{outcome_of, said_of};
ghost use Rattle.vx_plans.specs.Health.{first_line, last_line, model_part, remarks_if};
ghost use Rattle.vx_plans.specs.Job.{is_dimacs_path, slashed};
ghost use Rattle.vx_plans.specs.KeepsFiles.{KeepsFiles};
ghost use Rattle.vx_plans.specs.Plan.{IsGiven};
ghost use Rattle.vx_space.specs.Sets.{Extends, IsSet};
ghost use Rattle.vx_verify.specs.Verdict.{has_short_code};

use crate::reading::read_class_files;
use crate::saying::{
    first_line, put_main, put_remarks_if, stopped, told, unlinked, unread, unspelled,
};
use crate::words::DoctorWords;
use std::alloc::{AllocError, Global};
use vx_inputs::{
    MOST_BYTES, Modeled, Parts, Traced, is_allowing, list_class_files, parted, program_in,
    read_file, spelled_model, with_allowed,
};
use vx_io::Files;
use vx_lines::LineTable;
use vx_link::Program;
use vx_may_end::spots;
use vx_model::Model;
use vx_outlines::outlines;
use vx_overview::put_overview;
use vx_plans::{Answer, Status};
use vx_program_bounds::linked_are_bounded;
use vx_reached::reached;
use vx_refusals::put_versions;
use vx_space::{Space, SpaceFault};
use vx_spots::spots_text;

/// The text of what a program may lack. Where there is none, memory was wanting.
fn lacks_of(alloc: Global, program: &Program, tables: &[LineTable]) -> Result<Vec<u8>, AllocError>
    requires classes { HasClassNumbers program.now }
    requires codes { list_all (λ m. has_short_code m.code) program.now.methods ≡ true }
    ensures { IfOk result (λ text. AreLacks program.now tables.now text.items) }
{
    let found = spots(alloc, program)?;
    let marks = reached(alloc, program)?;
    spots_text(alloc, program, tables, marks.as_slice(), found.as_slice())
}

/// What is told of a program.
fn healthy(
    alloc: Global,
    front: Vec<u8>,
    main: &str,
    tables: &[LineTable],
    program: &Program,
) -> Result<Answer, AllocError>
    requires classes { HasClassNumbers program.now }
    requires codes { list_all (λ m. has_short_code m.code) program.now.methods ≡ true }
    ensures { IfOk result (λ answer. IsHealthy front.items (slashed main.now) tables.now program.now (said_of answer)) }
{
    let mut text = front;
    put_main(alloc, &mut text, main)?;
    let lacks = lacks_of(alloc, program, tables)?;
    text.extend_from_slice(lacks.as_slice())?;
    told(text, Status::Done)
}

/// What is told of class files that were read.
fn of_classes(
    alloc: Global,
    words: DoctorWords<'_>,
    front: Vec<u8>,
    model: &Model,
    paths: &[String],
    all: Vec<Traced>,
) -> Result<Answer, Status>
    requires few { length all.items ≤ 1024 }
    requires read { All (λ t. Holds t.class) all.items }
    requires model { IsModel model.now }
    ensures { (text : List ℕ) → front.items ≡ model_part (is_dimacs_path words.entry.model.now) text model.now →
        IsSaid (doctor_classes words.entry.model.now text words.entry.main.now model.now (map string_bytes paths.now) all.items) (outcome_of result) }
{
    let mut front = front;
    let parts = parted(alloc, all)?;
    let Parts {
        classes,
        tables,
        files: _,
    } = parts;
    put_versions(&mut front, classes.as_slice())?;
    let outlined = outlines(alloc, classes.as_slice())?;
    linked_are_bounded();
    match program_in(alloc, words.main, model, classes) {
        Ok(program) => Ok(healthy(alloc, front, words.main, tables.as_slice(), &program)?),
        Err(refusal) => unlinked(
            alloc,
            front,
            outlined.as_slice(),
            paths,
            model,
            words.main,
            refusal,
        ),
    }
}

/// What is told of the class files at these paths.
fn of_paths<F: Files>(
    alloc: Global,
    files: &mut F,
    words: DoctorWords<'_>,
    front: Vec<u8>,
    model: &Model,
    paths: &[String],
) -> Result<Answer, Status>
    requires few { length paths.now ≤ 1024 }
    requires model { IsModel model.now }
    ensures given { (text : List ℕ) → front.items ≡ model_part (is_dimacs_path words.entry.model.now) text model.now →
        IsGiven (F.seen files.old) (F.seen files.new)
        (doctor_paths words.entry.folder.now words.entry.model.now text words.entry.main.now model.now (map string_bytes paths.now)) (outcome_of result) }
    ensures keeps { KeepsFiles (F.seen files.old) (F.seen files.new) }
{
    match read_class_files(alloc, files, words.folder, paths) {
        Ok(all) => of_classes(alloc, words, front, model, paths, all),
        Err(stop) => stopped(front, stop),
    }
}

/// What is told of a folder.
fn of_folder<F: Files>(
    alloc: Global,
    files: &mut F,
    words: DoctorWords<'_>,
    front: Vec<u8>,
    model: &Model,
) -> Result<Answer, Status>
    requires model { IsModel model.now }
    ensures given { (text : List ℕ) → front.items ≡ model_part (is_dimacs_path words.entry.model.now) text model.now →
        IsGiven (F.seen files.old) (F.seen files.new)
        (doctor_folder words.entry.folder.now words.entry.model.now text words.entry.main.now model.now) (outcome_of result) }
    ensures keeps { KeepsFiles (F.seen files.old) (F.seen files.new) }
{
    match list_class_files(alloc, files, words.folder) {
        Ok(paths) => of_paths(alloc, files, words, front, model, paths.as_slice()),
        Err(refusal) => unread(front, b" class files\n", refusal),
    }
}

/// Puts what is told of a model.
fn put_model<S: Space>(
    alloc: Global,
    out: &mut Vec<u8>,
    space: &mut S,
    path: &str,
    text: &[u8],
    model: &Model,
    allowed: S::Id,
) -> Result<(), SpaceFault>
    requires options { (S.sets space.old).options ≡ length model.now.options }
    requires allowed { IsSet (S.sets space.old) allowed (is_allowed model.now) }
    ensures text { OnOk result (out.new.items ≡ out.old.items ++ overview_text model.now ++ remarks_if (is_dimacs_path path.now) text.now model.now) }
    ensures extends { Extends (S.sets space.old) (S.sets space.new) }
{
    put_overview(alloc, out, space, model, allowed)?;
    Ok(put_remarks_if(out, path, text, model)?)
}

/// What is said of a model that allows no configuration.
fn none_allowed(front: Vec<u8>) -> Result<Answer, AllocError>
    ensures { IfOk result (λ answer. said_of answer ≡ (front.items ++ none_line ++ last_line Status.NoConfiguration, Status.NoConfiguration)) }
{
    let mut text = front;
    text.extend_from_slice(b"no configuration meets all rules\n")?;
    told(text, Status::NoConfiguration)
}

/// What is told of a model, and of the folder behind it.
fn of_model<F: Files>(
    alloc: Global,
    files: &mut F,
    words: DoctorWords<'_>,
    front: Vec<u8>,
    text: &[u8],
    model: Model,
) -> Result<Answer, Status>
    requires front { front.items ≡ first_line }
    requires model { IsModel model }
    ensures given { IsGiven (F.seen files.old) (F.seen files.new)
        (doctor_model words.entry.folder.now words.entry.model.now text.now words.entry.main.now model) (outcome_of result) }
    ensures keeps { KeepsFiles (F.seen files.old) (F.seen files.new) }
{
    let mut front = front;
    let modeled = with_allowed(alloc, model)?;
    let Modeled {
        model,
        mut space,
        allowed,
    } = modeled;
    put_model(
        alloc,
        &mut front,
        &mut space,
        words.model,
        text,
        &model,
        allowed,
    )?;
    if is_allowing(&space, &model, allowed) {
        of_folder(alloc, files, words, front, &model)
    } else {
        Ok(none_allowed(front)?)
    }
}

/// What is told of the bytes of a model's file, and of the folder behind it.
fn of_text<F: Files>(
    alloc: Global,
    files: &mut F,
    words: DoctorWords<'_>,
    text: &[u8],
) -> Result<Answer, Status>
    ensures given { IsGiven (F.seen files.old) (F.seen files.new)
        (doctor_text words.entry.folder.now words.entry.model.now words.entry.main.now text.now) (outcome_of result) }
    ensures keeps { KeepsFiles (F.seen files.old) (F.seen files.new) }
{
    let front = first_line(alloc)?;
    match spelled_model(alloc, words.model, text) {
        Ok(model) => of_model(alloc, files, words, front, text, model),
        Err(fault) => unspelled(front, words.model, text, fault),
    }
}

/// The text of `doctor`, with the status behind it.
pub fn doctor_of<F: Files>(
    alloc: Global,
    files: &mut F,
    words: DoctorWords<'_>,
) -> Result<Answer, Status>
    ensures given { IsGiven (F.seen files.old) (F.seen files.new)
        (doctor_plan words.entry.folder.now words.entry.model.now words.entry.main.now) (outcome_of result) }
    ensures keeps { KeepsFiles (F.seen files.old) (F.seen files.new) }
{
    match read_file(alloc, files, MOST_BYTES, words.model, words.model) {
        Ok(text) => of_text(alloc, files, words, text.as_slice()),
        Err(refusal) => unread(first_line(alloc)?, b" bytes\n", refusal),
    }
}
