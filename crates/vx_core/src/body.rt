//! The code of a method of the table.

ghost use Rattle.std.specs.Prelude.{◌≡◌, ◌++◌, IfOk, OnOk, flat_map};
ghost use Rattle.vx_core.specs.Rows.{part_index, instruction_bytes, row_code};
ghost use Rattle.vx_link.specs.Written.{two_bytes};

use crate::entries::low;
use crate::row::{How, Instruction};
use std::alloc::{AllocError, Global};
use vx_class::Code;
use vx_list::Items;

/// The opcode of `ldc`.
const LDC: u8 = 0x12;

/// The index of a part, where the parts begin at an index, each is of so many entries, and so many parts stand before.
pub fn part_index(start: u16, size: u8, before: usize) -> u16
    ensures { result ≡ part_index start size before }
{
    low(start as usize + size as usize * low(before) as usize)
}

/// A number of two bytes.
fn put_two(bytes: &mut Vec<u8>, number: u16) -> Result<(), AllocError>
    ensures { OnOk result (bytes.new.items ≡ bytes.old.items ++ two_bytes number) }
{
    bytes.push((number / 256) as u8)?;
    bytes.push((number % 256) as u8)?;
    Ok(())
}

/// An instruction, where the references begin at an index.
#[tactic(auto, unfolding(crate::specs::Rows::instruction_bytes))]
fn put_instruction(
    bytes: &mut Vec<u8>,
    start: u16,
    instruction: Instruction,
) -> Result<(), AllocError>
    ensures { OnOk result (bytes.new.items ≡ bytes.old.items ++ instruction_bytes start instruction) }
{
    match instruction {
        Instruction::Plain(opcode) => {
            bytes.push(opcode)?;
            Ok(())
        }
        Instruction::Jump(opcode, distance) => {
            bytes.push(opcode)?;
            put_two(bytes, distance)
        }
        Instruction::Naming(opcode, reference) => {
            bytes.push(opcode)?;
            put_two(bytes, part_index(start, 6, reference as usize))
        }
        Instruction::Ldc(reference) => {
            bytes.push(LDC)?;
            bytes.push((part_index(start, 6, reference as usize) % 256) as u8)?;
            Ok(())
        }
    }
}

/// The bytes of a body.
fn bytes_of(alloc: Global, start: u16, instructions: &[Instruction]) -> Result<Vec<u8>, AllocError>
    ensures { IfOk result (λ bytes. bytes.items ≡ flat_map (instruction_bytes start) instructions.now) }
{
    let mut bytes = Vec::new(alloc);
    for instruction in instructions {
        put_instruction(&mut bytes, start, *instruction)?;
    }
    Ok(bytes)
}

/// The code of a method, where it has some and the references begin at an index.
#[tactic(auto, unfolding(crate::specs::Rows::row_code))]
pub fn code_of(alloc: Global, start: u16, how: &How) -> Result<Option<Code>, AllocError>
    ensures { IfOk result (λ code. code ≡ row_code start how.now) }
{
    match *how {
        How::Native(_) => Ok(None),
        How::Nothing => Ok(None),
        How::Body(max_stack, max_locals, instructions) => Ok(Some(Code {
            max_stack,
            max_locals,
            bytes: Items::of(bytes_of(alloc, start, instructions)?),
            catches: Items::of(Vec::new(alloc)),
        })),
    }
}
