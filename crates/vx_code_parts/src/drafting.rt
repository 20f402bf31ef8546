//! The constant that an instruction needs, and its draft.

ghost use Rattle.std.specs.Prelude.{◌≡◌, ◌++◌, map, IfOk, OnOk};
ghost use Rattle.std.specs.Int.{w16, cast_unsigned};
ghost use Rattle.vx_class.specs.Spelling.{u2};
ghost use Rattle.vx_code_parts.specs.Instructions.{number_of, kind_of, constant_of, one, index_bytes, slots_bytes, number_bytes, wide_prefix, sized, operand_bytes, jump_draft, row_of, drafted, draft_of};

use crate::drafts::{Draft, Row};
use crate::instructions::{is_field_opcode, number_of};
use crate::labels::Labels;
use std::alloc::{AllocError, Global};
use vx_class_parts::{Constant, Kind, interface_slots};
use vx_list::Items;
use vx_source::{Case, Instruction, Member, Operand};
use vx_source_words::{GOTO_W, INVOKEINTERFACE, LDC, SIPUSH, WIDE};
use vx_value::Name;
use vx_writer::{put_count, put_u1};

fn kind_of(opcode: u8, interface: bool) -> Kind
    ensures { result ≡ kind_of opcode interface }
{
    if is_field_opcode(opcode) {
        Kind::Field
    } else if opcode == INVOKEINTERFACE || interface {
        Kind::InterfaceMethod
    } else {
        Kind::Method
    }
}

fn member_constant(alloc: Global, opcode: u8, member: &Member) -> Result<Constant, AllocError>
    ensures { IfOk result (λ c. c ≡ Constant.Member (kind_of opcode member.now.interface) member.now.class member.now.name member.now.descriptor) }
{
    let class = Name::of(alloc, member.class.bytes())?;
    let name = Name::of(alloc, member.name.bytes())?;
    let descriptor = Name::of(alloc, member.descriptor.bytes())?;
    Ok(Constant::Member(kind_of(opcode, member.interface), class, name, descriptor))
}

/// The constant that an instruction needs.
pub fn constant_of(
    alloc: Global,
    opcode: u8,
    operand: &Operand,
) -> Result<Option<Constant>, AllocError>
    ensures { IfOk result (λ c. c ≡ constant_of opcode operand.now) }
{
    match operand {
        Operand::Int(number) => Ok(Some(Constant::Integer(*number))),
        Operand::Long(number) => Ok(Some(Constant::Long(*number))),
        Operand::Text(Some(text)) => Ok(Some(Constant::Literal(Name::of(alloc, text.bytes())?))),
        Operand::Class(name) | Operand::Dimensions(name, _) => {
            Ok(Some(Constant::Class(Name::of(alloc, name.bytes())?)))
        }
        Operand::Member(member) => Ok(Some(member_constant(alloc, opcode, member)?)),
        _ => Ok(None),
    }
}

/// The lowest byte of a number.
fn put_byte(out: &mut Vec<u8>, number: usize) -> Result<(), AllocError>
    ensures { OnOk result (out.new.items ≡ out.old.items ++ one number) }
{
    put_u1(out, (number % 256) as u8)
}

fn put_index(out: &mut Vec<u8>, opcode: u8, index: usize) -> Result<(), AllocError>
    ensures { OnOk result (out.new.items ≡ out.old.items ++ index_bytes opcode index) }
{
    if opcode == LDC {
        put_byte(out, index)
    } else {
        put_count(out, index)
    }
}

fn put_slots(
    alloc: Global,
    out: &mut Vec<u8>,
    opcode: u8,
    descriptor: &[u8],
) -> Result<(), AllocError>
    ensures { OnOk result (out.new.items ≡ out.old.items ++ slots_bytes opcode descriptor.now) }
{
    if opcode != INVOKEINTERFACE {
        return Ok(());
    }
    put_byte(out, usize::from(interface_slots(alloc, descriptor)?))?;
    put_byte(out, 0)
}

fn put_number(out: &mut Vec<u8>, opcode: u8, number: i32) -> Result<(), AllocError>
    ensures { OnOk result (out.new.items ≡ out.old.items ++ number_bytes opcode number) }
{
    let number = number.cast_unsigned() as usize;
    if opcode == SIPUSH {
        put_count(out, number)
    } else {
        put_byte(out, number)
    }
}

fn put_sized(out: &mut Vec<u8>, wide: bool, number: usize) -> Result<(), AllocError>
    ensures { OnOk result (out.new.items ≡ out.old.items ++ sized wide number) }
{
    if wide {
        put_count(out, number)
    } else {
        put_byte(out, number)
    }
}

fn put_prefix(out: &mut Vec<u8>, wide: bool) -> Result<(), AllocError>
    ensures { OnOk result (out.new.items ≡ out.old.items ++ wide_prefix wide) }
{
    if wide {
        put_byte(out, usize::from(WIDE))
    } else {
        Ok(())
    }
}

fn put_increment(out: &mut Vec<u8>, wide: bool, local: u16, by: i16) -> Result<(), AllocError>
    ensures { OnOk result (out.new.items ≡ out.old.items ++ (sized wide local ++ sized wide (cast_unsigned w16 by))) }
{
    put_sized(out, wide, usize::from(local))?;
    put_sized(out, wide, usize::from(by.cast_unsigned()))
}

fn put_dimensions(out: &mut Vec<u8>, index: u16, count: u8) -> Result<(), AllocError>
    ensures { OnOk result (out.new.items ≡ out.old.items ++ (u2 index ++ one count)) }
{
    put_count(out, usize::from(index))?;
    put_byte(out, usize::from(count))
}

fn put_member_operand(
    alloc: Global,
    out: &mut Vec<u8>,
    opcode: u8,
    index: u16,
    descriptor: &[u8],
) -> Result<(), AllocError>
    ensures { OnOk result (out.new.items ≡ out.old.items ++ (u2 index ++ slots_bytes opcode descriptor.now)) }
{
    put_count(out, usize::from(index))?;
    put_slots(alloc, out, opcode, descriptor)
}

/// What stands behind an opcode without jumps.
#[tactic(auto, unfolding(crate::specs::Instructions::operand_bytes))]
fn put_operand(
    alloc: Global,
    out: &mut Vec<u8>,
    opcode: u8,
    wide: bool,
    index: u16,
    operand: &Operand,
) -> Result<(), AllocError>
    ensures { OnOk result (out.new.items ≡ out.old.items ++ operand_bytes opcode wide index operand.now) }
{
    match operand {
        Operand::Number(number) => put_number(out, opcode, *number),
        Operand::Local(local) => put_sized(out, wide, usize::from(*local)),
        Operand::Increment(local, by) => put_increment(out, wide, *local, *by),
        Operand::Member(member) => {
            put_member_operand(alloc, out, opcode, index, member.descriptor.bytes())
        }
        Operand::Dimensions(_, count) => put_dimensions(out, index, *count),
        Operand::Nothing => Ok(()),
        _ => put_index(out, opcode, usize::from(index)),
    }
}

/// The bytes of an instruction without jumps.
fn instruction_bytes(
    alloc: Global,
    index: u16,
    opcode: u8,
    wide: bool,
    operand: &Operand,
) -> Result<Vec<u8>, AllocError>
    ensures { IfOk result (λ v. v.items ≡ wide_prefix wide ++ (one opcode ++ operand_bytes opcode wide index operand.now)) }
{
    let mut out = Vec::new(alloc);
    put_prefix(&mut out, wide)?;
    put_byte(&mut out, usize::from(opcode))?;
    put_operand(alloc, &mut out, opcode, wide, index, operand)?;
    Ok(out)
}

fn jump_draft(opcode: u8, target: usize) -> Draft
    ensures { result ≡ jump_draft opcode target }
{
    if opcode == GOTO_W {
        Draft::JumpWide(opcode, target)
    } else {
        Draft::Jump(opcode, target)
    }
}

fn targets(alloc: Global, labels: &Labels, names: &[Name]) -> Result<Vec<usize>, AllocError>
    ensures { IfOk result (λ v. v.items ≡ map (number_of labels.now) names.now) }
{
    let mut targets = Vec::new(alloc);
    for name in names {
        targets.push(number_of(labels, name.bytes()))?;
    }
    Ok(targets)
}

fn row_of(labels: &Labels, case: &Case) -> Row
    ensures { result ≡ row_of labels.now case.now }
{
    Row {
        key: case.key,
        target: number_of(labels, case.label.bytes()),
    }
}

fn rows(alloc: Global, labels: &Labels, cases: &[Case]) -> Result<Vec<Row>, AllocError>
    ensures { IfOk result (λ v. v.items ≡ map (row_of labels.now) cases.now) }
{
    let mut rows = Vec::new(alloc);
    for case in cases {
        rows.push(row_of(labels, case))?;
    }
    Ok(rows)
}

/// The draft of an instruction, the index of whose constant is known.
#[tactic(auto, unfolding(crate::specs::Instructions::drafted))]
pub fn draft_of(
    alloc: Global,
    labels: &Labels,
    index: u16,
    instruction: &Instruction,
) -> Result<Draft, AllocError>
    ensures { IfOk result (λ d. d ≡ draft_of labels.now index instruction.now) }
{
    let opcode = instruction.opcode;
    match &instruction.operand {
        Operand::Jump(label) => Ok(jump_draft(opcode, number_of(labels, label.bytes()))),
        Operand::Table(table) => {
            let targets = targets(alloc, labels, table.labels.as_slice())?;
            let fallback = number_of(labels, table.fallback.bytes());
            Ok(Draft::Table(table.low, fallback, Items::of(targets)))
        }
        Operand::Lookup(lookup) => {
            let rows = rows(alloc, labels, lookup.cases.as_slice())?;
            let fallback = number_of(labels, lookup.fallback.bytes());
            Ok(Draft::Lookup(fallback, Items::of(rows)))
        }
        operand => {
            let bytes = instruction_bytes(alloc, index, opcode, instruction.wide, operand)?;
            Ok(Draft::Bytes(Items::of(bytes)))
        }
    }
}
