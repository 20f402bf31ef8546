//! The checks of one instruction of a body: its labels and its rules (JVMS 4.9.1).

ghost use Rattle.std.specs.Prelude.{◌≡◌, ◌==◌, ◌||◌, not, nat_lt, None, option_copied, IfOk};
ghost use Rattle.std.specs.List.{list_all};
ghost use Rattle.vx_pool.specs.Instructions.{local_of, is_long_local};
ghost use Rattle.vx_opcode.specs.declared.instruction.Operand.TheVariants as plain;
ghost use Rattle.vx_class_parts.specs.Rules.{interface_slots};
ghost use Rattle.vx_source_words.specs.Reading.{Gives};
ghost use Rattle.vx_code_parts.specs.Instructions.{number_of, is_known, leads, all_labels, is_of_version, is_text, class_rule, is_field_opcode, call_rule, member_rule, is_above, ascend, local_below, is_lawful, instruction_checked};

use crate::labels::Labels;
use std::alloc::{AllocError, Global};
use vx_class_parts::{
    has_dimensions, interface_slots, is_lawful_class, is_lawful_field, is_lawful_method,
    is_plain_class,
};
use vx_pool::{dimensions, is_callable};
use vx_source::{Case, Instruction, Member, Operand};
use vx_source_words::{ANEWARRAY, INVOKEINTERFACE, LineFault, NEW, PUTFIELD, refused};
use vx_value::Name;

/// The number of the instruction behind a label, or 0.
pub fn number_of(labels: &Labels, name: &[u8]) -> usize
    ensures { result ≡ number_of labels.now name.now }
{
    labels.labels.find(name).unwrap_or(0)
}

/// Whether a label stands in the body.
pub fn is_known(labels: &Labels, name: &[u8]) -> bool
    ensures { result ≡ is_known labels.now name.now }
{
    labels.labels.find(name).is_some()
}

/// Whether an instruction stands behind a label.
pub fn leads(labels: &Labels, name: &[u8]) -> bool
    ensures { result ≡ leads labels.now name.now }
{
    number_of(labels, name) < labels.instructions
}

fn are_known(labels: &Labels, names: &[Name]) -> bool
    ensures { result ≡ list_all (is_known labels.now) names.now }
{
    names.iter().all(|name| is_known(labels, name.bytes()))
}

fn all_lead(labels: &Labels, names: &[Name]) -> bool
    ensures { result ≡ list_all (leads labels.now) names.now }
{
    names.iter().all(|name| leads(labels, name.bytes()))
}

fn are_cases_known(labels: &Labels, cases: &[Case]) -> bool
    ensures { result ≡ list_all (λ c. is_known labels.now c.label) cases.now }
{
    cases
        .iter()
        .all(|case| is_known(labels, case.label.bytes()))
}

fn all_cases_lead(labels: &Labels, cases: &[Case]) -> bool
    ensures { result ≡ list_all (λ c. leads labels.now c.label) cases.now }
{
    cases.iter().all(|case| leads(labels, case.label.bytes()))
}

/// Whether the labels of an operand are known.
fn has_known_labels(labels: &Labels, operand: &Operand) -> bool
    ensures { result ≡ all_labels (is_known labels.now) operand.now }
{
    match operand {
        Operand::Jump(label) => is_known(labels, label.bytes()),
        Operand::Table(table) => {
            is_known(labels, table.fallback.bytes()) && are_known(labels, table.labels.as_slice())
        }
        Operand::Lookup(lookup) => {
            is_known(labels, lookup.fallback.bytes())
                && are_cases_known(labels, lookup.cases.as_slice())
        }
        _ => true,
    }
}

/// Whether an instruction stands behind each label of an operand.
fn has_leading_labels(labels: &Labels, operand: &Operand) -> bool
    ensures { result ≡ all_labels (leads labels.now) operand.now }
{
    match operand {
        Operand::Jump(label) => leads(labels, label.bytes()),
        Operand::Table(table) => {
            leads(labels, table.fallback.bytes()) && all_lead(labels, table.labels.as_slice())
        }
        Operand::Lookup(lookup) => {
            leads(labels, lookup.fallback.bytes())
                && all_cases_lead(labels, lookup.cases.as_slice())
        }
        _ => true,
    }
}

/// Whether an instruction may have an operand in a version: a static call of a method of an interface stands only in 52.
pub fn is_of_version(major: u16, operand: &Operand) -> bool
    ensures { result ≡ is_of_version major operand.now }
{
    match operand {
        Operand::Member(member) => !member.interface || major == 52,
        _ => true,
    }
}

fn is_text(operand: &Operand) -> bool
    ensures { result ≡ is_text operand.now }
{
    match operand {
        Operand::Text(text) => text.is_some(),
        _ => true,
    }
}

fn class_rule(opcode: u8, name: &[u8]) -> bool
    ensures { result ≡ class_rule opcode name.now }
{
    if opcode == NEW {
        return is_plain_class(name);
    }
    is_lawful_class(name) && (opcode != ANEWARRAY || dimensions(name) < 255)
}

pub fn is_field_opcode(opcode: u8) -> bool
    ensures { result ≡ is_field_opcode opcode }
{
    opcode <= PUTFIELD
}

/// Whether `invokeinterface` has room for the argument slots.
fn has_few_slots(alloc: Global, opcode: u8, member: &Member) -> Result<bool, AllocError>
    ensures { IfOk result (λ b. b ≡ (not (opcode == 0xb9) || nat_lt (interface_slots member.now.descriptor) 256)) }
{
    if opcode != INVOKEINTERFACE {
        return Ok(true);
    }
    Ok(interface_slots(alloc, member.descriptor.bytes())? < 256)
}

fn call_rule(alloc: Global, opcode: u8, member: &Member) -> Result<bool, AllocError>
    ensures { IfOk result (λ b. b ≡ call_rule opcode member.now) }
{
    if !is_lawful_method(alloc, member.name.bytes(), member.descriptor.bytes())? {
        return Ok(false);
    }
    if !is_callable(opcode, member.name.bytes()) {
        return Ok(false);
    }
    has_few_slots(alloc, opcode, member)
}

fn member_rule(alloc: Global, opcode: u8, member: &Member) -> Result<bool, AllocError>
    ensures { IfOk result (λ b. b ≡ member_rule opcode member.now) }
{
    if !is_lawful_class(member.class.bytes()) {
        return Ok(false);
    }
    if is_field_opcode(opcode) {
        return Ok(is_lawful_field(member.name.bytes(), member.descriptor.bytes()));
    }
    call_rule(alloc, opcode, member)
}

fn is_above(least: Option<&Case>, case: &Case) -> bool
    ensures { result ≡ is_above (option_copied least.entry) case.now }
{
    match least {
        None => true,
        Some(least) => least.key < case.key,
    }
}

/// Whether the keys of some cases ascend.
fn ascend(cases: &[Case]) -> bool
    ensures { result ≡ ascend None cases.now }
{
    let mut least = None;
    for case in cases {
        let above = is_above(least, case);
        if !above {
            return false;
        }
        least = Some(case);
    }
    true
}

/// The local that the opcode of a short form says.
fn short_local(opcode: u8) -> Option<u16>
    ensures { result ≡ local_of opcode plain.Nothing }
{
    match opcode {
        0x1a..=0x2d => Some(u16::from((opcode - 0x1a) % 4)),
        0x3b..=0x4e => Some(u16::from((opcode - 0x3b) % 4)),
        _ => None,
    }
}

fn is_long_local(opcode: u8) -> bool
    ensures { result ≡ is_long_local opcode }
{
    matches!(opcode, 0x16 | 0x37 | 0x1e..=0x21 | 0x3f..=0x42)
}

/// Whether a local is below the number of locals, and so the second one of a long.
fn local_fits(max_locals: u16, opcode: u8, local: Option<u16>) -> bool
    ensures { result ≡ local_below max_locals opcode local }
{
    match local {
        None => true,
        Some(local) if is_long_local(opcode) => u32::from(local) + 1 < u32::from(max_locals),
        Some(local) => local < max_locals,
    }
}

/// The rules of an operand.
fn is_lawful(
    alloc: Global,
    max_locals: u16,
    opcode: u8,
    operand: &Operand,
) -> Result<bool, AllocError>
    ensures { IfOk result (λ b. b ≡ is_lawful max_locals opcode operand.now) }
{
    match operand {
        Operand::Class(name) => Ok(class_rule(opcode, name.bytes())),
        Operand::Dimensions(name, count) => {
            Ok(is_lawful_class(name.bytes()) && has_dimensions(*count, name.bytes()))
        }
        Operand::Member(member) => member_rule(alloc, opcode, member),
        Operand::Lookup(lookup) => Ok(ascend(lookup.cases.as_slice())),
        Operand::Local(local) | Operand::Increment(local, _) => {
            Ok(local_fits(max_locals, opcode, Some(*local)))
        }
        Operand::Nothing => Ok(local_fits(max_locals, opcode, short_local(opcode))),
        _ => Ok(true),
    }
}

/// The checks of an instruction, by ascending reason.
#[tactic(auto, unfolding(crate::specs::Instructions::instruction_checked))]
pub fn check_instruction(
    alloc: Global,
    major: u16,
    max_locals: u16,
    labels: &Labels,
    instruction: &Instruction,
) -> Result<(), LineFault>
    ensures { Gives result (instruction_checked major max_locals labels.now instruction.now) }
{
    let operand = &instruction.operand;
    if !is_of_version(major, operand) {
        return refused(2);
    }
    if !has_known_labels(labels, operand) {
        return refused(4);
    }
    if !is_text(operand) {
        return refused(6);
    }
    if !is_lawful(alloc, max_locals, instruction.opcode, operand)? {
        return refused(8);
    }
    if !has_leading_labels(labels, operand) {
        return refused(8);
    }
    Ok(())
}
