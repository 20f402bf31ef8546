//! What is said, put together behind what was said before.

ghost use Rattle.std.specs.Prelude.{◌≡◌, ◌++◌, IfOk, List, OnOk, map, string_bytes};
ghost use Rattle.vx_class.specs.declared.class_file.ClassFile as class;
ghost use Rattle.vx_doctor_command.specs.Saying.{core_outlines, form_of, large_text, say_class, say_fault, say_link, say_model, say_unread};
ghost use Rattle.vx_doctor_command.specs.Stops.{IsSaid, stop_plan};
ghost use Rattle.vx_outlines.specs.Outlines.{outline_of};
ghost use Rattle.vx_outlines.specs.Refusals.{refusal_text};
ghost use Rattle.vx_plans.specs.Answers.{outcome_of, said_of};
ghost use Rattle.vx_plans.specs.Health.{first_line, last_line, main_text, remarks_if};
ghost use Rattle.vx_plans.specs.Job.{is_dimacs_path, slashed};

use crate::reading::Stop;
use std::alloc::{AllocError, Global};
use vx_core::core;
use vx_inputs::is_dimacs;
use vx_link::LinkFault;
use vx_model::{Model, ModelFault, slashed};
use vx_outlines::{Outline, Sought, outlines, put_link_refusal};
use vx_overview::put_remarks;
use vx_plans::{Answer, Status};
use vx_reasons::Form;
use vx_refusals::{put_class_refusal, put_model_refusal};
use vx_report::put_spelled;
use vx_value::Name;
use vx_words::{WORD, put_number};

/// The first line.
pub(crate) fn first_line(alloc: Global) -> Result<Vec<u8>, AllocError>
    ensures { IfOk result (λ text. text.items ≡ first_line) }
{
    Vec::from_slice(alloc, b"varexj doctor 1\n")
}

/// Puts the number of a status and its name.
#[tactic(auto, unfolding(vx_plans::specs::Health::last_line))]
fn put_last(out: &mut Vec<u8>, status: &Status) -> Result<(), AllocError>
    ensures { OnOk result (out.new.items ≡ out.old.items ++ last_line status.now) }
{
    out.extend_from_slice(b"status ")?;
    put_number(out, status.code())?;
    out.extend_from_slice(b" ")?;
    out.extend_from_slice(status.name())?;
    out.extend_from_slice(b"\n")
}

/// A text, with the status behind it.
pub(crate) fn told(text: Vec<u8>, last: Status) -> Result<Answer, AllocError>
    ensures { IfOk result (λ answer. said_of answer ≡ (text.items ++ last_line last, last)) }
{
    let mut text = text;
    put_last(&mut text, &last)?;
    Ok(Answer { text, last })
}

/// Puts what is too large.
fn put_large(out: &mut Vec<u8>, path: &[u8], room: u64, of: &[u8]) -> Result<(), AllocError>
    ensures { OnOk result (out.new.items ≡ out.old.items ++ large_text path.now room of.now) }
{
    put_spelled(out, WORD, path)?;
    out.extend_from_slice(b" has more than ")?;
    put_number(out, room)?;
    out.extend_from_slice(of)
}

/// What is said of a file or a folder that could not be read or is too large: `of` are the things of which it has too many.
pub(crate) fn unread(front: Vec<u8>, of: &[u8], refusal: Status) -> Result<Answer, Status>
    ensures { IsSaid (say_unread front.items of.now refusal) (outcome_of result) }
{
    match refusal {
        Status::TooLarge { path, room } => {
            let mut text = front;
            put_large(&mut text, path.bytes(), room, of)?;
            Ok(told(text, Status::TooLarge { path, room })?)
        }
        refusal => Err(refusal),
    }
}

/// The form of the file of a model.
fn form_of(path: &str) -> Form
    ensures { result ≡ form_of path.now }
{
    if is_dimacs(path) {
        Form::Dimacs
    } else {
        Form::Model
    }
}

/// What is said of a model that is refused.
fn bad_model(
    front: Vec<u8>,
    path: &str,
    text: &[u8],
    line: u64,
    reason: u8,
) -> Result<Answer, Status>
    requires { front.items ≡ first_line }
    ensures { IsSaid (say_model path.now text.now (Status.BadModel line reason)) (outcome_of result) }
{
    let mut out = front;
    put_model_refusal(&mut out, form_of(path), text, line, reason)?;
    Ok(told(out, Status::BadModel { line, reason })?)
}

/// What is said where the bytes of a file spell no model.
pub(crate) fn unspelled(
    front: Vec<u8>,
    path: &str,
    text: &[u8],
    fault: ModelFault,
) -> Result<Answer, Status>
    requires { front.items ≡ first_line }
    ensures { IsSaid (say_fault path.now text.now fault) (outcome_of result) }
{
    match fault {
        ModelFault::NoMemory => Err(Status::NoMemory),
        ModelFault::Line { line, reason } => bad_model(front, path, text, line, reason),
    }
}

/// What is said of a class file that is refused.
fn bad_class(
    front: Vec<u8>,
    path: Name,
    bytes: &[u8],
    at: u64,
    reason: u8,
) -> Result<Answer, Status>
    ensures { IsSaid (say_class front.items bytes.now (Status.BadClass path at reason)) (outcome_of result) }
{
    let mut text = front;
    put_class_refusal(&mut text, path.bytes(), bytes, at, reason)?;
    Ok(told(text, Status::BadClass { path, at, reason })?)
}

/// What is said where the class files were not all read.
pub(crate) fn stopped(front: Vec<u8>, stop: Stop) -> Result<Answer, Status>
    ensures { IsSaid (stop_plan front.items stop) (outcome_of result) }
{
    match stop {
        Stop::Unread { refusal } => unread(front, b" bytes\n", refusal),
        Stop::NoClass {
            path,
            bytes,
            at,
            reason,
        } => bad_class(front, path, bytes.as_slice(), at, reason),
    }
}

/// Puts the comments of a model in DIMACS form that begin as name lines do, and are none.
pub(crate) fn put_remarks_if(
    out: &mut Vec<u8>,
    path: &str,
    text: &[u8],
    model: &Model,
) -> Result<(), AllocError>
    ensures { OnOk result (out.new.items ≡ out.old.items ++ remarks_if (is_dimacs_path path.now) text.now model.now) }
{
    if !is_dimacs(path) {
        return Ok(());
    }
    put_remarks(out, model.options.len() as u64, text)
}

/// Puts the class whose `main` runs.
#[tactic(auto, unfolding(vx_plans::specs::Health::main_text))]
fn put_main_name(out: &mut Vec<u8>, main: &[u8]) -> Result<(), AllocError>
    ensures { OnOk result (out.new.items ≡ out.old.items ++ main_text main.now) }
{
    out.extend_from_slice(b"main ")?;
    put_spelled(out, WORD, main)?;
    out.extend_from_slice(b"\n")
}

/// Puts the class whose `main` runs, which may have `.` for `/`.
pub(crate) fn put_main(alloc: Global, out: &mut Vec<u8>, main: &str) -> Result<(), AllocError>
    ensures { OnOk result (out.new.items ≡ out.old.items ++ main_text (slashed main.now)) }
{
    let main = slashed(alloc, main.as_bytes())?;
    put_main_name(out, main.bytes())
}

/// The core classes, as linking sees them.
#[tactic(auto, unfolding(crate::specs::Saying::core_outlines))]
fn core_outlines(alloc: Global) -> Result<Vec<Outline>, AllocError>
    ensures { IfOk result (λ all. all.items ≡ core_outlines) }
{
    let core = core(alloc)?;
    outlines(alloc, core.classes.as_slice())
}

/// Puts why class files do not link.
fn put_fault(
    alloc: Global,
    out: &mut Vec<u8>,
    classes: &[Outline],
    paths: &[String],
    model: &Model,
    main: &str,
    fault: &LinkFault,
) -> Result<(), AllocError>
    ensures { OnOk result (out.new.items ≡ out.old.items
        ++ refusal_text classes.now (map string_bytes paths.now) core_outlines model.now.options (slashed main.now) fault.now) }
{
    let core = core_outlines(alloc)?;
    let main = slashed(alloc, main.as_bytes())?;
    let sought = Sought {
        classes,
        paths,
        core: core.as_slice(),
        options: model.options.as_slice(),
        main: main.bytes(),
    };
    put_link_refusal(out, &sought, fault)
}

/// What is said of class files that do not link.
pub(crate) fn unlinked(
    alloc: Global,
    front: Vec<u8>,
    classes: &[Outline],
    paths: &[String],
    model: &Model,
    main: &str,
    refusal: Status,
) -> Result<Answer, Status>
    ensures { (files : List class.ClassFile) → classes.now ≡ map outline_of files →
        IsSaid (say_link front.items files (map string_bytes paths.now) model.now main.now refusal) (outcome_of result) }
{
    match refusal {
        Status::BadLink { fault } => {
            let mut text = front;
            put_fault(alloc, &mut text, classes, paths, model, main, &fault)?;
            Ok(told(text, Status::BadLink { fault })?)
        }
        refusal => Err(refusal),
    }
}
