//! The checks of a method's instructions (JVMS 4.9.1): whole ones, and what their operands name.

ghost use Rattle.std.specs.Prelude.{◌≡◌, ◌+◌, ◌*◌, ◌^◌, ◌<◌, ◌≤◌, ◌&&◌, ◌||◌, ◌==◌, All, Err, length, IfOk, Some, false, Option, None};
ghost use Rattle.vx_pool.specs.Reading.{Answers};
ghost use Rattle.vx_opcode.specs.Decode.{TableFits};
ghost use Rattle.vx_opcode.specs.declared.instruction.Operand.TheVariants.{Pool as PoolOperand, Interface, Dimensions};
ghost use Rattle.vx_pool.specs.Lookups.{entry_of, class_text, member_name, member_descriptor};
ghost use Rattle.vx_pool.specs.Checks.{first_failing};
ghost use Rattle.vx_pool.specs.Entries.{where_read};
ghost use Rattle.vx_pool.specs.Instructions.{has_slots, local_of, is_long_local, local_fits, is_kind_for, called, is_callable, dimensions, pool_checks, operand_checks, whole_at, checked_at, starts_of};

use crate::judged::JudgedPool;
use crate::lookups::{class_text, entry_of, is_array, is_usable, member_name, name_and_type, text};
use crate::starts::Starts;
use crate::{ClassFault, Entry, Pool, refusal};
use std::alloc::Global;
use vx_desc::is_init;
use vx_list::Items;
use vx_opcode::{Instruction, Operand, decode};

/// The local that an instruction reads or writes.
fn local_of(opcode: u8, operand: Operand) -> Option<u16>
    ensures { result ≡ local_of opcode operand }
{
    match operand {
        Operand::Local(local) | Operand::Increment(local, _) => Some(local),
        Operand::Nothing if matches!(opcode, 0x1a..=0x2d) => Some(u16::from((opcode - 0x1a) % 4)),
        Operand::Nothing if matches!(opcode, 0x3b..=0x4e) => Some(u16::from((opcode - 0x3b) % 4)),
        _ => None,
    }
}

/// Whether an opcode loads or stores a long.
fn is_long_local(opcode: u8) -> bool
    ensures { result ≡ is_long_local opcode }
{
    matches!(opcode, 0x16 | 0x37 | 0x1e..=0x21 | 0x3f..=0x42)
}

fn local_fits(max_locals: u16, opcode: u8, operand: Operand) -> bool
    ensures { result ≡ local_fits max_locals opcode operand }
{
    match local_of(opcode, operand) {
        None => true,
        Some(local) if is_long_local(opcode) => u32::from(local) + 1 < u32::from(max_locals),
        Some(local) => local < max_locals,
    }
}

/// Whether an opcode may name the entry of an index.
fn is_kind_for(pool: &Pool, major: u16, opcode: u8, index: u16) -> bool
    ensures { result ≡ is_kind_for major opcode (entry_of pool.now index) }
{
    let entry = entry_of(pool, index);
    match opcode {
        0..=0x13 => matches!(
            entry,
            Some(
                Entry::Integer(_)
                    | Entry::Float(_)
                    | Entry::Text(_)
                    | Entry::Class(_)
                    | Entry::MethodHandle(_, _)
                    | Entry::MethodType(_)
            )
        ),
        0x14 => matches!(entry, Some(Entry::Long(_) | Entry::Double(_))),
        0x15..=0xb5 => matches!(entry, Some(Entry::Field(_, _))),
        0xb6 => matches!(entry, Some(Entry::Method(_, _))),
        0xb7 | 0xb8 => match entry {
            Some(Entry::Method(_, _)) => true,
            Some(Entry::InterfaceMethod(_, _)) => major == 52,
            _ => false,
        },
        0xb9 => matches!(entry, Some(Entry::InterfaceMethod(_, _))),
        0xba => matches!(entry, Some(Entry::InvokeDynamic(_, _))),
        _ => matches!(entry, Some(Entry::Class(_))),
    }
}

/// The name and type of a method that is called.
fn called(pool: &Pool, index: u16) -> Option<u16>
    ensures { result ≡ called (entry_of pool.now index) }
{
    match entry_of(pool, index) {
        Some(Entry::Method(_, member) | Entry::InterfaceMethod(_, member)) => Some(*member),
        _ => None,
    }
}

/// Whether an instruction may call a method of a name: one that begins with `<` only by invokespecial, and then `<init>`
/// (JVMS 4.9.1).
pub fn is_callable(opcode: u8, name: &[u8]) -> bool
    ensures { result ≡ is_callable opcode name.now }
{
    name.first() != Some(&b'<') || (opcode == 0xb7 && is_init(name))
}

/// How many dimensions the text of a class begins with.
pub fn dimensions(name: &[u8]) -> usize
    ensures { result ≡ dimensions name.now }
{
    name.iter().take_while(|b| **b == b'[').count()
}

fn pool_operand(pool: &Pool, major: u16, opcode: u8, index: u16, at: u64) -> Result<(), ClassFault>
    ensures { Answers result (first_failing at (pool_checks pool.now major opcode index)) }
{
    if !is_usable(pool, index) {
        return refusal(at, 5);
    }
    if !is_kind_for(pool, major, opcode, index) {
        return refusal(at, 6);
    }
    match called(pool, index) {
        Some(member) => match member_name(pool, member) {
            Some(name) if !is_callable(opcode, name) => refusal(at, 6),
            _ => Ok(()),
        },
        None => Ok(()),
    }
}

/// The checks of an instruction that names an entry alone.
fn plain_operand(pool: &Pool, major: u16, opcode: u8, index: u16, at: u64) -> Result<(), ClassFault>
    ensures { Answers result (first_failing at (operand_checks pool.now major 0 opcode (PoolOperand index))) }
{
    pool_operand(pool, major, opcode, index, at)?;
    match class_text(pool, index) {
        Some(name) if opcode == 0xbb && is_array(name) => refusal(at, 6),
        Some(name) if opcode == 0xbd && dimensions(name) >= 255 => refusal(at, 12),
        _ => Ok(()),
    }
}

/// Whether the descriptor of a name and type has a receiver and arguments of so many slots.
fn has_slots(pool: &JudgedPool, member: u16, slots: u8) -> bool
    ensures { result ≡ where_read (has_slots slots) (member_descriptor pool.now member) }
{
    let Some((_, descriptor)) = name_and_type(pool.pool(), member) else {
        return true;
    };
    match text(pool.pool(), descriptor) {
        Some(_) => match pool.slots(descriptor) {
            Some(count) => u16::from(count) + 1 == u16::from(slots),
            None => false,
        },
        None => true,
    }
}

fn interface_operand(
    pool: &JudgedPool,
    major: u16,
    opcode: u8,
    index: u16,
    slots: u8,
    at: u64,
) -> Result<(), ClassFault>
    ensures { Answers result (first_failing at (operand_checks pool.now major 0 opcode (Interface index slots))) }
{
    pool_operand(pool.pool(), major, opcode, index, at)?;
    match called(pool.pool(), index) {
        Some(member) if !has_slots(pool, member, slots) => refusal(at, 12),
        _ => Ok(()),
    }
}

fn dimensions_operand(
    pool: &Pool,
    major: u16,
    opcode: u8,
    index: u16,
    count: u8,
    at: u64,
) -> Result<(), ClassFault>
    ensures { Answers result (first_failing at (operand_checks pool.now major 0 opcode (Dimensions index count))) }
{
    pool_operand(pool, major, opcode, index, at)?;
    if count == 0 {
        return refusal(at, 12);
    }
    match class_text(pool, index) {
        Some(name) if dimensions(name) < count as usize => refusal(at, 12),
        _ => Ok(()),
    }
}

/// The checks of an instruction that stands at `at`, but for its jumps.
fn operand(
    pool: &JudgedPool,
    major: u16,
    max_locals: u16,
    instruction: Instruction,
    at: u64,
) -> Result<(), ClassFault>
    ensures { Answers result (first_failing at (operand_checks pool.now major max_locals instruction.opcode instruction.operand)) }
{
    let opcode = instruction.opcode;
    match instruction.operand {
        Operand::Pool(index) => plain_operand(pool.pool(), major, opcode, index, at),
        Operand::Interface(index, slots) => {
            interface_operand(pool, major, opcode, index, slots, at)
        }
        Operand::Dimensions(index, count) => {
            dimensions_operand(pool.pool(), major, opcode, index, count, at)
        }
        other => {
            if local_fits(max_locals, opcode, other) {
                Ok(())
            } else {
                refusal(at, 5)
            }
        }
    }
}

/// The instruction at a place of code whose first byte stands at `base`.
pub fn whole_at(code: &[u8], at: u32, base: u64) -> Result<Instruction, ClassFault>
    requires size { length code.now ≤ 65535 }
    requires fits { base + length code.now < 2 ^ 64 }
    requires place { at ≤ length code.now }
    ensures value { Answers result (whole_at code.now base at) }
    ensures bounds { IfOk result (λ i. (0 < i.length) × (at + i.length ≤ length code.now)) }
    ensures entries { IfOk result (λ i. TableFits code.now i.operand) }
{
    match decode(code, at) {
        Ok(instruction) => Ok(instruction),
        Err(_) => Err(ClassFault::Bad {
            at: base + u64::from(at),
            reason: 10,
        }),
    }
}

/// The instruction at a place, which meets its checks but for its jumps.
#[tactic(auto, unfolding(crate::specs::Instructions::checked_at))]
fn checked_at(
    pool: &JudgedPool,
    major: u16,
    max_locals: u16,
    code: &[u8],
    base: u64,
    at: u32,
) -> Result<Instruction, ClassFault>
    requires size { length code.now ≤ 65535 }
    requires fits { base + length code.now < 2 ^ 64 }
    requires place { at ≤ length code.now }
    ensures value { Answers result (checked_at pool.now major max_locals code.now base at) }
    ensures bounds { IfOk result (λ i. (0 < i.length) × (at + i.length ≤ length code.now)) }
{
    let instruction = whole_at(code, at, base)?;
    operand(pool, major, max_locals, instruction, base + u64::from(at))?;
    Ok(instruction)
}

fn places_of(
    alloc: Global,
    pool: &JudgedPool,
    major: u16,
    max_locals: u16,
    code: &[u8],
    base: u64,
) -> Result<Items<u32>, ClassFault>
    requires size { length code.now ≤ 65535 }
    requires fits { base + length code.now < 2 ^ 64 }
    ensures value { Answers result (starts_of pool.now major max_locals code.now base) }
    ensures below { IfOk result (λ starts. All (λ s. s < length code.now) starts) }
{
    let mut starts = Vec::new(alloc);
    let mut at = 0;
    while (at as usize) < code.len() {
        let instruction = checked_at(pool, major, max_locals, code, base, at)?;
        starts.push(at)?;
        at += instruction.length;
    }
    Ok(Items::of(starts))
}

/// The places where instructions stand.
pub fn starts_of(
    alloc: Global,
    pool: &JudgedPool,
    major: u16,
    max_locals: u16,
    code: &[u8],
    base: u64,
) -> Result<Starts, ClassFault>
    requires size { length code.now ≤ 65535 }
    requires fits { base + length code.now < 2 ^ 64 }
    ensures value { Answers result (starts_of pool.now major max_locals code.now base) }
    ensures below { IfOk result (λ starts. All (λ s. s < length code.now) starts) }
{
    let places = places_of(alloc, pool, major, max_locals, code, base)?;
    Ok(Starts::of(alloc, places, code.len())?)
}
