//! The lines of a method's body: instructions, labels and catch rows (JVMS 4.7.3, 4.9.1).

ghost use Rattle.std.specs.Prelude.{◌≡◌, ◌+◌, ◌<◌, ◌&&◌, take, min, option_copied, is_some, OnOk, IfOk};
ghost use Rattle.vx_source_words.specs.Reading.{GivesBy};
ghost use Rattle.vx_code_parts.specs.Bodies.{find_label};
ghost use Rattle.vx_code_parts.specs.Instructions.{constant_of};
ghost use Rattle.vx_asm.specs.Bodies.{with_needed, is_index_near, with_draft, pool_of_instruction, with_instruction, instruction_said, label_said, are_known, is_caught, is_lawful_row, covered, with_covered, with_row, catch_said};

use crate::class_draft::{Body, ClassDraft, Covered};
use crate::pushing::push;
use std::alloc::{AllocError, Global};
use vx_class_parts::{Constant, ConstantTable, in_file_or_zero, is_lawful_class, put_constant};
use vx_code_parts::{Labels, check_instruction, constant_of, draft_of, is_known, leads, number_of};
use vx_source::{CatchLine, Instruction};
use vx_source_words::{LDC, LineFault, refused};
use vx_value::Name;

/// The constant that an instruction needs.
fn put_needed(
    alloc: Global,
    pool: &mut ConstantTable,
    needed: Option<&Constant>,
) -> Result<(), AllocError>
    ensures { OnOk result (pool.new ≡ with_needed pool.old (option_copied needed.entry)) }
{
    match needed {
        None => Ok(()),
        Some(constant) => Ok(put_constant(alloc, pool, constant)?),
    }
}

/// Whether the index of a constant fits the byte that `ldc` has for it.
fn is_index_near(pool: &ConstantTable, opcode: u8, needed: Option<&Constant>) -> bool
    ensures { result ≡ is_index_near pool.now opcode (option_copied needed.entry) }
{
    match needed {
        None => true,
        Some(constant) => opcode != LDC || pool.index_of(constant) < 256,
    }
}

fn push_draft(
    alloc: Global,
    body: &mut Body,
    pool: &ConstantTable,
    needed: Option<&Constant>,
    instruction: &Instruction,
) -> Result<(), AllocError>
    ensures { OnOk result (body.new ≡ with_draft body.old pool.now (option_copied needed.entry) instruction.now) }
{
    let index = in_file_or_zero(pool, needed);
    let draft = draft_of(alloc, &body.labels, index, instruction)?;
    push(alloc, &mut body.drafts, draft)?;
    body.is_near = body.is_near && is_index_near(pool, instruction.opcode, needed);
    Ok(())
}

/// An instruction behind the others, whose constant the pool gets.
fn put_instruction(
    alloc: Global,
    pool: &mut ConstantTable,
    body: &mut Body,
    instruction: &Instruction,
) -> Result<(), AllocError>
    ensures pool { OnOk result (pool.new ≡ pool_of_instruction pool.old instruction.now) }
    ensures body { OnOk result (body.new ≡ with_draft body.old pool.new (constant_of instruction.now.opcode instruction.now.operand) instruction.now) }
{
    let needed = constant_of(alloc, instruction.opcode, &instruction.operand)?;
    put_needed(alloc, pool, needed.as_ref())?;
    push_draft(alloc, body, pool, needed.as_ref(), instruction)
}

#[tactic(auto, unfolding(crate::specs::Bodies::with_instruction))]
fn push_instruction(
    alloc: Global,
    draft: &mut ClassDraft,
    body: Body,
    instruction: &Instruction,
) -> Result<(), AllocError>
    ensures { OnOk result (draft.new ≡ with_instruction draft.old body instruction.now) }
{
    let mut body = body;
    put_instruction(alloc, &mut draft.pool, &mut body, instruction)?;
    draft.body = Some(body);
    Ok(())
}

/// An instruction of a body, behind the others where it meets its rules: of its version (2), its labels (4), its text (6)
/// and its operands (8).
#[tactic(auto, unfolding(crate::specs::Bodies::instruction_said))]
pub fn instruction_line(
    alloc: Global,
    draft: &mut ClassDraft,
    body: Body,
    instruction: &Instruction,
) -> Result<(), LineFault>
    ensures { GivesBy (λ _. draft.new) result (instruction_said draft.old body instruction.now) }
{
    check_instruction(
        alloc,
        draft.major,
        body.max_locals,
        &body.labels,
        instruction,
    )?;
    Ok(push_instruction(alloc, draft, body, instruction)?)
}

/// Whether a label that was passed has this name.
fn is_repeated(body: &Body, name: &[u8]) -> bool
    ensures { result ≡ is_some (find_label (take body.now.passed body.now.labels.labels) name.now) }
{
    body.labels.labels.is_among(body.passed, name)
}

/// One more, up to all.
fn one_more(passed: usize, all: usize) -> usize
    ensures { result ≡ min all (passed + 1) }
{
    if passed < all { passed + 1 } else { all }
}

/// A label, which stands once in its body (4).
#[tactic(auto, unfolding(crate::specs::Bodies::label_said))]
pub fn label_line(draft: &mut ClassDraft, body: Body, name: &[u8]) -> Result<(), LineFault>
    ensures { GivesBy (λ _. draft.new) result (label_said draft.old body name.now) }
{
    if is_repeated(&body, name) {
        return refused(4);
    }
    let mut body = body;
    body.passed = one_more(body.passed, body.labels.labels.len());
    draft.body = Some(body);
    Ok(())
}

fn are_known(labels: &Labels, line: &CatchLine) -> bool
    ensures { result ≡ are_known labels.now line.now }
{
    is_known(labels, line.start.bytes())
        && is_known(labels, line.end.bytes())
        && is_known(labels, line.handler.bytes())
}

fn is_caught(class: &Option<Name>) -> bool
    ensures { result ≡ is_caught class.now }
{
    match class {
        None => true,
        Some(name) => is_lawful_class(name.bytes()),
    }
}

/// Whether a row covers something, and an instruction stands behind its handler.
fn is_lawful_row(labels: &Labels, line: &CatchLine) -> bool
    ensures { result ≡ is_lawful_row labels.now line.now }
{
    number_of(labels, line.start.bytes()) < number_of(labels, line.end.bytes())
        && leads(labels, line.handler.bytes())
        && is_caught(&line.class)
}

fn caught(alloc: Global, class: &Option<Name>) -> Result<Option<Name>, AllocError>
    ensures { IfOk result (λ c. c ≡ class.now) }
{
    match class {
        None => Ok(None),
        Some(name) => Ok(Some(Name::of(alloc, name.bytes())?)),
    }
}

fn covered(alloc: Global, labels: &Labels, line: &CatchLine) -> Result<Covered, AllocError>
    ensures { IfOk result (λ c. c ≡ covered labels.now line.now) }
{
    Ok(Covered {
        start: number_of(labels, line.start.bytes()),
        end: number_of(labels, line.end.bytes()),
        handler: number_of(labels, line.handler.bytes()),
        class: caught(alloc, &line.class)?,
    })
}

fn push_covered(alloc: Global, body: &mut Body, line: &CatchLine) -> Result<(), AllocError>
    ensures { OnOk result (body.new ≡ with_covered body.old line.now) }
{
    let row = covered(alloc, &body.labels, line)?;
    push(alloc, &mut body.rows, row)
}

#[tactic(auto, unfolding(crate::specs::Bodies::with_row))]
fn push_row(
    alloc: Global,
    draft: &mut ClassDraft,
    body: Body,
    line: &CatchLine,
) -> Result<(), AllocError>
    ensures { OnOk result (draft.new ≡ with_row draft.old body line.now) }
{
    let mut body = body;
    push_covered(alloc, &mut body, line)?;
    draft.body = Some(body);
    Ok(())
}

/// A catch row: its labels are known (4), it covers something, an instruction stands behind its handler, and what it
/// catches is a class (8).
#[tactic(auto, unfolding(crate::specs::Bodies::catch_said))]
pub fn catch_line(
    alloc: Global,
    draft: &mut ClassDraft,
    body: Body,
    line: &CatchLine,
) -> Result<(), LineFault>
    ensures { GivesBy (λ _. draft.new) result (catch_said draft.old body line.now) }
{
    if !are_known(&body.labels, line) {
        return refused(4);
    }
    if !is_lawful_row(&body.labels, line) {
        return refused(8);
    }
    Ok(push_row(alloc, draft, body, line)?)
}
