//! Fields and their values (JVMS 4.5, 4.7.2).

ghost use Rattle.std.specs.Prelude.{◌≡◌, ◌<◌, option_copied, OnOk, IfOk};
ghost use Rattle.vx_source_words.specs.Reading.{GivesBy};
ghost use Rattle.vx_asm.specs.Parts.{with_signature, is_text_value, constant_of_value, with_value, field_of, pool_of_field, with_field, is_lawful_field_line, field_said};

use crate::class_draft::{ClassDraft, Stage};
use crate::parts::may_have_field;
use crate::pushing::push;
use std::alloc::{AllocError, Global};
use vx_class::Field;
use vx_class_parts::{
    Constant, ConstantTable, in_file_or_zero, is_lawful_field, may_have_value, put_constant,
    put_text, text_index,
};
use vx_list::GivenUp;
use vx_source::{FieldLine, Value};
use vx_source_words::{LineFault, refused};
use vx_value::Name;

fn is_text_value(value: &Value) -> bool
    ensures { result ≡ is_text_value value.now }
{
    !matches!(value, Value::Text(None))
}

/// The constant that a value needs.
fn constant_of_value(alloc: Global, value: &Value) -> Result<Option<Constant>, AllocError>
    ensures { IfOk result (λ c. c ≡ constant_of_value value.now) }
{
    match value {
        Value::Int(number) => Ok(Some(Constant::Integer(*number))),
        Value::Long(number) => Ok(Some(Constant::Long(*number))),
        Value::Text(Some(text)) => Ok(Some(Constant::Literal(Name::of(alloc, text.bytes())?))),
        _ => Ok(None),
    }
}

/// The name and the descriptor of a member.
pub fn put_signature(
    alloc: Global,
    pool: &mut ConstantTable,
    name: &[u8],
    descriptor: &[u8],
) -> Result<(), GivenUp>
    ensures { OnOk result (pool.new ≡ with_signature pool.old name.now descriptor.now) }
{
    put_text(alloc, pool, name)?;
    Ok(put_text(alloc, pool, descriptor)?)
}

/// The name of the attribute, then the value.
fn put_value(
    alloc: Global,
    pool: &mut ConstantTable,
    given: Option<&Constant>,
) -> Result<(), AllocError>
    ensures { OnOk result (pool.new ≡ with_value pool.old (option_copied given.entry)) }
{
    match given {
        None => Ok(()),
        Some(constant) => {
            put_text(alloc, pool, b"ConstantValue")?;
            Ok(put_constant(alloc, pool, constant)?)
        }
    }
}

fn field_of(
    alloc: Global,
    pool: &ConstantTable,
    given: Option<&Constant>,
    line: &FieldLine,
) -> Result<Field, AllocError>
    ensures { IfOk result (λ f. f ≡ field_of pool.now (option_copied given.entry) line.now) }
{
    Ok(Field {
        flags: line.flags,
        name: text_index(alloc, pool, line.name.bytes())?,
        descriptor: text_index(alloc, pool, line.descriptor.bytes())?,
        constant: in_file_or_zero(pool, given),
    })
}

/// The field of a line, of which the pool gets all that it needs.
fn put_field(alloc: Global, pool: &mut ConstantTable, line: &FieldLine) -> Result<Field, AllocError>
    ensures pool { OnOk result (pool.new ≡ pool_of_field pool.old line.now) }
    ensures field { IfOk result (λ f. f ≡ field_of pool.new (constant_of_value line.now.value) line.now) }
{
    let given = constant_of_value(alloc, &line.value)?;
    put_signature(alloc, pool, line.name.bytes(), line.descriptor.bytes())?;
    put_value(alloc, pool, given.as_ref())?;
    field_of(alloc, pool, given.as_ref(), line)
}

#[tactic(auto, unfolding(crate::specs::Parts::with_field))]
fn push_field(alloc: Global, draft: &mut ClassDraft, line: &FieldLine) -> Result<(), AllocError>
    ensures { OnOk result (draft.new ≡ with_field draft.old line.now) }
{
    let signatures = &mut draft.field_signatures;
    signatures.push(alloc, line.name.bytes(), line.descriptor.bytes())?;
    let field = put_field(alloc, &mut draft.pool, line)?;
    push(alloc, &mut draft.fields, field)?;
    draft.stage = Stage::Fields;
    Ok(())
}

#[tactic(auto, using(crate::proofs::Short::field_is_short), unfolding(crate::specs::Parts::is_lawful_field_line))]
fn is_lawful_line(alloc: Global, draft: &ClassDraft, line: &FieldLine) -> Result<bool, AllocError>
    ensures { IfOk result (λ b. b ≡ is_lawful_field_line draft.now line.now) }
{
    let name = line.name.bytes();
    let descriptor = line.descriptor.bytes();
    if !is_lawful_field(name, descriptor) {
        return Ok(false);
    }
    if !may_have_value(draft.flags, line.flags, descriptor, &line.value) {
        return Ok(false);
    }
    Ok(!draft.field_signatures.is_taken(alloc, name, descriptor)?)
}

/// A field: it stands in its place (5), its value is a text where one is expected (6), and it meets the rules of fields (8).
#[tactic(auto, unfolding(crate::specs::Parts::field_said))]
pub fn field_line(alloc: Global, draft: &mut ClassDraft, line: &FieldLine) -> Result<(), LineFault>
    ensures { GivesBy (λ _. draft.new) result (field_said draft.old line.now) }
{
    if !may_have_field(draft.stage) {
        return refused(5);
    }
    if !is_text_value(&line.value) {
        return refused(6);
    }
    if !is_lawful_line(alloc, draft, line)? {
        return refused(8);
    }
    Ok(push_field(alloc, draft, line)?)
}
