//! The class that a source names, line by line.

ghost use Rattle.std.specs.Prelude.{◌≡◌, ◌+◌, ◌<◌, ◌^◌, Ok, Err, ◌&&◌, ◌==◌, OnOk, IfOk, IfErr, None};
ghost use Rattle.vx_class.specs.declared.class_file.ClassFile.{ClassFile};
ghost use Rattle.vx_code_parts.specs.Instructions.{is_of_version};
ghost use Rattle.vx_source_words.specs.Reading.{GivesBy, check};
ghost use Rattle.vx_writer.specs.Written.{spelling};
ghost use Rattle.vx_asm.specs.Parts.{part_said};
ghost use Rattle.vx_asm.specs.Bodies.{body_said};
ghost use Rattle.vx_asm.specs.Source.{said_in, with_line, is_small, is_late, located, fault_at, walk, nothing, file_of, is_whole, finished, named, Refuses, Answers};

use crate::bodies::{catch_line, instruction_line, label_line};
use crate::class_draft::{Body, ClassDraft, Stage};
use crate::ends::end_line;
use crate::fault::AsmFault;
use crate::fields::field_line;
use crate::methods::method_line;
use crate::parts::{class_line, has_class, implements_line, version_line};
use crate::signature_table::SignatureTable;
use std::alloc::{AllocError, Global};
use vx_class::ClassFile;
use vx_class_parts::{ConstantTable, pool_of};
use vx_code_parts::is_of_version;
use vx_list::{Items, Keyed};
use vx_source::{Operand, Said, Source, SourceLine, Statement, read_source};
use vx_source_words::{LineFault, refused};
use vx_writer::write_class;

/// An instruction that stands in no body.
fn stray_instruction(draft: &ClassDraft, operand: &Operand) -> Result<(), LineFault>
    ensures { GivesBy (λ _. draft.now) result (check (is_of_version draft.now.major operand.now) 2 (Err 5)) }
{
    if is_of_version(draft.major, operand) {
        refused(5)
    } else {
        refused(2)
    }
}

/// A line outside of bodies.
#[tactic(auto, unfolding(crate::specs::Parts::part_said))]
fn part_line(
    alloc: Global,
    draft: &mut ClassDraft,
    statement: &Statement,
    behind: &[SourceLine],
) -> Result<(), LineFault>
    ensures { GivesBy (λ _. draft.new) result (part_said draft.old statement.now behind.now) }
{
    match statement {
        Statement::Version(major) => version_line(draft, *major),
        Statement::Class(line) => class_line(alloc, draft, line),
        Statement::Implements(name) => implements_line(alloc, draft, name.bytes()),
        Statement::Field(line) => field_line(alloc, draft, line),
        Statement::Method(line) => method_line(alloc, draft, line, behind),
        Statement::Instruction(instruction) => stray_instruction(draft, &instruction.operand),
        _ => refused(5),
    }
}

/// A line of a body.
#[tactic(auto, unfolding(crate::specs::Bodies::body_said))]
fn body_line(
    alloc: Global,
    draft: &mut ClassDraft,
    body: Body,
    statement: &Statement,
) -> Result<(), LineFault>
    ensures { GivesBy (λ _. draft.new) result (body_said draft.old body statement.now) }
{
    match statement {
        Statement::Instruction(instruction) => instruction_line(alloc, draft, body, instruction),
        Statement::Label(name) => label_line(draft, body, name.bytes()),
        Statement::Catch(line) => catch_line(alloc, draft, body, line),
        Statement::End => end_line(alloc, draft, &body),
        _ => refused(5),
    }
}

fn said_in(
    alloc: Global,
    body: Option<Body>,
    draft: &mut ClassDraft,
    statement: &Statement,
    behind: &[SourceLine],
) -> Result<(), LineFault>
    ensures { GivesBy (λ _. draft.new) result (said_in body draft.old statement.now behind.now) }
{
    match body {
        None => part_line(alloc, draft, statement, behind),
        Some(body) => body_line(alloc, draft, body, statement),
    }
}

/// One line more.
#[tactic(auto, unfolding(crate::specs::Source::with_line))]
fn put_line(
    alloc: Global,
    draft: &mut ClassDraft,
    said: &Said,
    behind: &[SourceLine],
) -> Result<(), LineFault>
    ensures { GivesBy (λ _. draft.new) result (with_line draft.old said.now behind.now) }
{
    match said {
        Said::Refused(reason) => refused(*reason),
        Said::Statement(statement) => {
            let body = draft.body.take();
            said_in(alloc, body, draft, statement, behind)
        }
    }
}

/// Whether the pool has at most 65,535 places, and so many interfaces, fields and methods can be counted.
#[tactic(auto, unfolding(crate::specs::Source::is_small))]
fn is_small(draft: &ClassDraft) -> bool
    ensures { result ≡ is_small draft.now }
{
    draft.pool.places() < 65_536
        && draft.interfaces.len() < 65_536
        && draft.fields.len() < 65_536
        && draft.methods.len() < 65_536
}

/// The fault of a line, where `late` says that the class is too large at the last line.
fn fault_at(fault: LineFault, late: bool, line: u64) -> AsmFault
    ensures { result ≡ fault_at fault late line }
{
    match fault {
        LineFault::NoMemory => AsmFault::NoMemory,
        LineFault::Refused(8) if late => AsmFault::Line { line, reason: 7 },
        LineFault::Refused(reason) => AsmFault::Line { line, reason },
    }
}

fn at_line(
    alloc: Global,
    draft: &mut ClassDraft,
    line: &SourceLine,
    behind: &[SourceLine],
    count: u64,
) -> Result<(), AsmFault>
    ensures given { OnOk result (located line.now.number (is_late count draft.old line.now.number) (with_line draft.old line.now.said behind.now) ≡ Ok draft.new) }
    ensures refused { IfErr result (λ e. Refuses e (located line.now.number (is_late count draft.old line.now.number) (with_line draft.old line.now.said behind.now))) }
{
    let number = line.number;
    let late = number == count && !is_small(draft);
    match put_line(alloc, draft, &line.said, behind) {
        Ok(()) => Ok(()),
        Err(fault) => Err(fault_at(fault, late, number)),
    }
}

/// A class before the first line.
fn nothing(alloc: Global, key: Keyed) -> ClassDraft
    ensures { result ≡ nothing }
{
    ClassDraft {
        stage: Stage::Start,
        major: 51,
        flags: 0,
        this_class: 0,
        super_class: 0,
        pool: ConstantTable::new(alloc, key),
        interfaces: Items::of(Vec::new(alloc)),
        fields: Items::of(Vec::new(alloc)),
        field_signatures: SignatureTable::new(alloc, key),
        methods: Items::of(Vec::new(alloc)),
        method_signatures: SignatureTable::new(alloc, key),
        body: None,
    }
}

/// All lines, one after the other.
fn walk(alloc: Global, key: Keyed, lines: &[SourceLine], count: u64) -> Result<ClassDraft, AsmFault>
    ensures { Answers result (walk count nothing lines.now) }
{
    let mut draft = nothing(alloc, key);
    for at in 0..lines.len() {
        at_line(alloc, &mut draft, &lines[at], &lines[at + 1..], count)?;
    }
    Ok(draft)
}

fn file_of(alloc: Global, draft: ClassDraft) -> Result<ClassFile, AllocError>
    ensures { IfOk result (λ c. c ≡ file_of draft) }
{
    Ok(ClassFile {
        minor: 0,
        major: draft.major,
        pool: pool_of(alloc, &draft.pool)?,
        flags: draft.flags,
        this_class: draft.this_class,
        super_class: draft.super_class,
        interfaces: draft.interfaces,
        fields: draft.fields,
        methods: draft.methods,
    })
}

/// Whether there is a class, and each body has its end.
fn is_whole(draft: &ClassDraft) -> bool
    ensures { result ≡ is_whole draft.now }
{
    has_class(draft.stage) && draft.body.is_none()
}

/// Whether the lines may end here: behind the last of them a part may be missing.
#[tactic(auto, unfolding(crate::specs::Source::finished))]
fn check_end(draft: &ClassDraft, count: u64) -> Result<(), AsmFault>
    requires { count < 2 ^ 63 }
    ensures whole { OnOk result (finished count draft.now ≡ Ok (file_of draft.now)) }
    ensures refused { IfErr result (λ e. Refuses e (finished count draft.now)) }
{
    if !is_small(draft) {
        return Err(AsmFault::Line {
            line: count,
            reason: 7,
        });
    }
    if !is_whole(draft) {
        return Err(AsmFault::Line {
            line: count + 1,
            reason: 5,
        });
    }
    Ok(())
}

/// The class of all lines.
fn finish(alloc: Global, draft: ClassDraft, count: u64) -> Result<ClassFile, AsmFault>
    requires { count < 2 ^ 63 }
    ensures { Answers result (finished count draft) }
{
    check_end(&draft, count)?;
    Ok(file_of(alloc, draft)?)
}

fn class_of(alloc: Global, bytes: &[u8]) -> Result<ClassFile, AsmFault>
    ensures { Answers result (named bytes.now) }
{
    let source = read_source(alloc, bytes)?;
    let key = Keyed::by(bytes);
    let draft = walk(alloc, key, source.lines.as_slice(), source.count)?;
    finish(alloc, draft, source.count)
}

/// The bytes of the class file that a source names, in its one spelling. A refusal has the least line at which a rule of
/// the source language fails, with the least reason.
pub fn assemble(alloc: Global, bytes: &[u8]) -> Result<Vec<u8>, AsmFault>
    ensures written { IfOk result (λ out. (class : ClassFile) × (named bytes.now ≡ Ok class) × (out.items ≡ spelling class)) }
    ensures refused { IfErr result (λ e. Refuses e (named bytes.now)) }
{
    let class = class_of(alloc, bytes)?;
    Ok(write_class(alloc, &class)?)
}
