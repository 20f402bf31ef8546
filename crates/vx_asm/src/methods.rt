//! Methods up to their bodies (JVMS 4.6).

ghost use Rattle.std.specs.Prelude.{◌≡◌, ◌<◌, true, OnOk, IfOk};
ghost use Rattle.vx_source_words.specs.Reading.{GivesBy};
ghost use Rattle.vx_asm.specs.Parts.{locals_of, is_lawful_method_line, with_signature, bare_method, with_bare_method, body_of, pool_of_body, with_body, with_room, method_said};

use crate::class_draft::{Body, ClassDraft, Stage};
use crate::fields::put_signature;
use crate::parts::has_class;
use crate::pushing::push;
use std::alloc::{AllocError, Global};
use vx_class::Method;
use vx_class_parts::{
    ConstantTable, is_lawful_code, is_lawful_initialiser, is_lawful_method, put_text, text_index,
};
use vx_code_parts::labels_of;
use vx_list::Items;
use vx_source::{MethodLine, Room, SourceLine};
use vx_source_words::{LineFault, refused};

fn locals_of(room: Option<Room>) -> Option<u16>
    ensures { result ≡ locals_of room }
{
    match room {
        None => None,
        Some(room) => Some(room.max_locals),
    }
}

#[tactic(auto, using(crate::proofs::Short::method_is_short), unfolding(crate::specs::Parts::is_lawful_method_line))]
fn is_lawful_line(alloc: Global, draft: &ClassDraft, line: &MethodLine) -> Result<bool, AllocError>
    ensures { IfOk result (λ b. b ≡ is_lawful_method_line draft.now line.now) }
{
    let name = line.name.bytes();
    let descriptor = line.descriptor.bytes();
    if !is_lawful_method(alloc, name, descriptor)? {
        return Ok(false);
    }
    if !is_lawful_initialiser(alloc, name, descriptor)? {
        return Ok(false);
    }
    if !is_lawful_code(alloc, line.flags, name, descriptor, locals_of(line.room))? {
        return Ok(false);
    }
    Ok(!draft.method_signatures.is_taken(alloc, name, descriptor)?)
}

/// A method without code.
fn bare_method(alloc: Global, pool: &ConstantTable, line: &MethodLine) -> Result<Method, AllocError>
    ensures { IfOk result (λ m. m ≡ bare_method pool.now line.now) }
{
    Ok(Method {
        flags: line.flags,
        name: text_index(alloc, pool, line.name.bytes())?,
        descriptor: text_index(alloc, pool, line.descriptor.bytes())?,
        code: None,
    })
}

/// A method without code, of which the pool gets all that it needs.
fn put_bare_method(
    alloc: Global,
    pool: &mut ConstantTable,
    line: &MethodLine,
) -> Result<Method, AllocError>
    ensures pool { OnOk result (pool.new ≡ with_signature pool.old line.now.name line.now.descriptor) }
    ensures method { IfOk result (λ m. m ≡ bare_method pool.new line.now) }
{
    put_signature(alloc, pool, line.name.bytes(), line.descriptor.bytes())?;
    bare_method(alloc, pool, line)
}

#[tactic(auto, unfolding(crate::specs::Parts::with_bare_method))]
fn push_bare_method(
    alloc: Global,
    draft: &mut ClassDraft,
    line: &MethodLine,
) -> Result<(), AllocError>
    ensures { OnOk result (draft.new ≡ with_bare_method draft.old line.now) }
{
    let signatures = &mut draft.method_signatures;
    signatures.push(alloc, line.name.bytes(), line.descriptor.bytes())?;
    let method = put_bare_method(alloc, &mut draft.pool, line)?;
    push(alloc, &mut draft.methods, method)?;
    draft.stage = Stage::Methods;
    Ok(())
}

fn body_of(
    alloc: Global,
    pool: &ConstantTable,
    line: &MethodLine,
    room: Room,
    behind: &[SourceLine],
) -> Result<Body, AllocError>
    ensures { IfOk result (λ b. b ≡ body_of pool.now line.now room behind.now) }
{
    Ok(Body {
        flags: line.flags,
        name: text_index(alloc, pool, line.name.bytes())?,
        descriptor: text_index(alloc, pool, line.descriptor.bytes())?,
        max_stack: room.max_stack,
        max_locals: room.max_locals,
        labels: labels_of(alloc, behind)?,
        passed: 0,
        drafts: Items::of(Vec::new(alloc)),
        rows: Items::of(Vec::new(alloc)),
        is_near: true,
    })
}

/// A body that begins, of which the pool gets all that its method needs.
fn put_body(
    alloc: Global,
    pool: &mut ConstantTable,
    line: &MethodLine,
    room: Room,
    behind: &[SourceLine],
) -> Result<Body, AllocError>
    ensures pool { OnOk result (pool.new ≡ pool_of_body pool.old line.now) }
    ensures body { IfOk result (λ b. b ≡ body_of pool.new line.now room behind.now) }
{
    put_signature(alloc, pool, line.name.bytes(), line.descriptor.bytes())?;
    put_text(alloc, pool, b"Code")?;
    body_of(alloc, pool, line, room, behind)
}

#[tactic(auto, unfolding(crate::specs::Parts::with_body))]
fn begin_body(
    alloc: Global,
    draft: &mut ClassDraft,
    line: &MethodLine,
    room: Room,
    behind: &[SourceLine],
) -> Result<(), AllocError>
    ensures { OnOk result (draft.new ≡ with_body draft.old line.now room behind.now) }
{
    let signatures = &mut draft.method_signatures;
    signatures.push(alloc, line.name.bytes(), line.descriptor.bytes())?;
    let body = put_body(alloc, &mut draft.pool, line, room, behind)?;
    draft.stage = Stage::Methods;
    draft.body = Some(body);
    Ok(())
}

fn begin_method(
    alloc: Global,
    draft: &mut ClassDraft,
    line: &MethodLine,
    behind: &[SourceLine],
) -> Result<(), AllocError>
    ensures { OnOk result (draft.new ≡ with_room draft.old line.now line.now.room behind.now) }
{
    match line.room {
        None => push_bare_method(alloc, draft, line),
        Some(room) => begin_body(alloc, draft, line, room, behind),
    }
}

/// A method: the class stands before it (5), and it meets the rules of methods (8). The labels of its body are looked for in
/// the lines behind it.
#[tactic(auto, unfolding(crate::specs::Parts::method_said))]
pub fn method_line(
    alloc: Global,
    draft: &mut ClassDraft,
    line: &MethodLine,
    behind: &[SourceLine],
) -> Result<(), LineFault>
    ensures { GivesBy (λ _. draft.new) result (method_said draft.old line.now behind.now) }
{
    if !has_class(draft.stage) {
        return refused(5);
    }
    if !is_lawful_line(alloc, draft, line)? {
        return refused(8);
    }
    Ok(begin_method(alloc, draft, line, behind)?)
}
