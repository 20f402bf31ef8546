//! The version, the class and its interfaces, and the order in which parts may follow one another.

ghost use Rattle.std.specs.Prelude.{◌≡◌, OnOk, IfOk};
ghost use Rattle.vx_source_words.specs.Reading.{GivesBy};
ghost use Rattle.vx_class_parts.specs.Constants.{in_file};
ghost use Rattle.vx_class_parts.specs.declared.constants.Constant.TheVariants.{Class};
ghost use Rattle.vx_asm.specs.Parts.{may_have_version, may_have_class, may_have_interface, may_have_field, has_class, version_said, with_names, with_class_line, class_said, with_interface, implements_said};

use crate::class_draft::{ClassDraft, Stage};
use crate::pushing::push;
use std::alloc::{AllocError, Global};
use vx_class_parts::{ConstantTable, class_index, is_lawful_class, is_plain_class, put_class};
use vx_source::ClassLine;
use vx_source_words::{LineFault, refused};

fn may_have_version(stage: Stage) -> bool
    ensures { result ≡ may_have_version stage }
{
    matches!(stage, Stage::Start)
}

fn may_have_class(stage: Stage) -> bool
    ensures { result ≡ may_have_class stage }
{
    matches!(stage, Stage::Start | Stage::Version)
}

fn may_have_interface(stage: Stage) -> bool
    ensures { result ≡ may_have_interface stage }
{
    matches!(stage, Stage::Class)
}

/// Whether a field may follow.
pub fn may_have_field(stage: Stage) -> bool
    ensures { result ≡ may_have_field stage }
{
    matches!(stage, Stage::Class | Stage::Fields)
}

/// Whether the class itself was begun.
pub fn has_class(stage: Stage) -> bool
    ensures { result ≡ has_class stage }
{
    !may_have_class(stage)
}

/// The version, before which nothing stands (5).
#[tactic(auto, unfolding(crate::specs::Parts::version_said))]
pub fn version_line(draft: &mut ClassDraft, major: u16) -> Result<(), LineFault>
    ensures { GivesBy (λ _. draft.new) result (version_said draft.old major) }
{
    if !may_have_version(draft.stage) {
        return refused(5);
    }
    draft.stage = Stage::Version;
    draft.major = major;
    Ok(())
}

/// The indices of a class and of its superclass, which the pool gets.
fn put_names(
    alloc: Global,
    pool: &mut ConstantTable,
    line: &ClassLine,
) -> Result<(u16, u16), AllocError>
    ensures pool { OnOk result (pool.new ≡ with_names pool.old line.now) }
    ensures indices { IfOk result (λ p. p ≡ (in_file pool.new (Class line.now.name), in_file pool.new (Class line.now.super_class))) }
{
    put_class(alloc, pool, line.name.bytes())?;
    put_class(alloc, pool, line.super_class.bytes())?;
    let this_class = class_index(alloc, pool, line.name.bytes())?;
    let super_class = class_index(alloc, pool, line.super_class.bytes())?;
    Ok((this_class, super_class))
}

#[tactic(auto, unfolding(crate::specs::Parts::with_class_line))]
fn begin_class(alloc: Global, draft: &mut ClassDraft, line: &ClassLine) -> Result<(), AllocError>
    ensures { OnOk result (draft.new ≡ with_class_line draft.old line.now) }
{
    let (this_class, super_class) = put_names(alloc, &mut draft.pool, line)?;
    draft.stage = Stage::Class;
    draft.flags = line.flags;
    draft.this_class = this_class;
    draft.super_class = super_class;
    Ok(())
}

/// The class and its superclass, before which at most the version stands (5), and which are no arrays (8).
#[tactic(auto, unfolding(crate::specs::Parts::class_said))]
pub fn class_line(alloc: Global, draft: &mut ClassDraft, line: &ClassLine) -> Result<(), LineFault>
    ensures { GivesBy (λ _. draft.new) result (class_said draft.old line.now) }
{
    if !may_have_class(draft.stage) {
        return refused(5);
    }
    if !is_plain_class(line.name.bytes()) || !is_plain_class(line.super_class.bytes()) {
        return refused(8);
    }
    Ok(begin_class(alloc, draft, line)?)
}

#[tactic(auto, unfolding(crate::specs::Parts::with_interface))]
fn push_interface(alloc: Global, draft: &mut ClassDraft, name: &[u8]) -> Result<(), AllocError>
    ensures { OnOk result (draft.new ≡ with_interface draft.old name.now) }
{
    put_class(alloc, &mut draft.pool, name)?;
    let index = class_index(alloc, &draft.pool, name)?;
    push(alloc, &mut draft.interfaces, index)
}

/// A superinterface, before which the class and others stand (5), and which is a class (8).
#[tactic(auto, unfolding(crate::specs::Parts::implements_said))]
pub fn implements_line(alloc: Global, draft: &mut ClassDraft, name: &[u8]) -> Result<(), LineFault>
    ensures { GivesBy (λ _. draft.new) result (implements_said draft.old name.now) }
{
    if !may_have_interface(draft.stage) {
        return refused(5);
    }
    if !is_lawful_class(name) {
        return refused(8);
    }
    Ok(push_interface(alloc, draft, name)?)
}
