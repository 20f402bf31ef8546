//! The list of all instructions of a program that lack something.

ghost use Rattle.std.specs.List.{list_all};
ghost use Rattle.std.specs.Prelude.{◌≡◌, ◌++◌, ◌+◌, ◌≤◌, IfOk, IfSome, OnOk, Some, flat_map, length, option_map, true};
ghost use Rattle.vx_opcode.specs.Decode.{instruction_at};
ghost use Rattle.vx_java.specs.Ids.{HasClassNumbers};
ghost use Rattle.vx_jump_targets.specs.Placed.{starts_in};
ghost use Rattle.vx_link.specs.Parts.{method_at};
ghost use Rattle.vx_verify.specs.Verdict.{has_short_code};
ghost use Rattle.vx_may_end.specs.Listed.{first_spots, spot_of, spots, spots_at, spots_of};

use crate::classes::put_initialisation;
use crate::instructions::lacks_at;
use crate::lack::{Lack, Spot};
use std::alloc::{AllocError, Global};
use vx_class::Code;
use vx_java::parts::{class_of_method, code_of};
use vx_link::Program;
use vx_list::Items;
use vx_numbered::next_number;
use vx_opcode::decode;
use vx_value::MethodId;

/// Puts an instruction behind others, if it lacks something.
fn put_spot(
    out: &mut Vec<Spot>,
    method: MethodId,
    position: u32,
    lacks: Vec<Lack>,
) -> Result<(), AllocError>
    ensures { OnOk result (out.new.items ≡ out.old.items ++ spot_of method.0 position lacks.items) }
{
    if lacks.is_empty() {
        return Ok(());
    }
    Ok(out.push(Spot {
        method,
        position,
        lacks: Items::of(lacks),
    })?)
}

/// Puts the instruction at a position of a method's code, if it lacks something.
fn put_spot_at(
    alloc: Global,
    out: &mut Vec<Spot>,
    program: &Program,
    method: MethodId,
    code: &Code,
    position: u32,
) -> Result<(), AllocError>
    requires classes { HasClassNumbers program.now }
    requires few { length code.now.bytes ≤ 65535 }
    requires code { (method_at program.now method.0).code ≡ Some code.now }
    ensures { OnOk result (out.new.items ≡ out.old.items ++ spots_at program.now method.0 position) }
{
    let lacks = lacks_at(alloc, program, method, code, position)?;
    put_spot(out, method, position, lacks)
}

/// How many bytes the instruction at a position has, if one stands there.
fn size_at(code: &Code, position: u32) -> Option<u32>
    requires { length code.now.bytes ≤ 65535 }
    ensures value { result ≡ option_map (λ i. i.length) (instruction_at code.now.bytes position) }
    ensures within { IfSome result (λ size. position + size ≤ length code.now.bytes) }
{
    match decode(code.bytes.as_slice(), position) {
        Ok(instruction) => Some(instruction.length),
        Err(_) => None,
    }
}

/// Puts the instructions of a method's code that lack something.
fn put_spots_in(
    alloc: Global,
    out: &mut Vec<Spot>,
    program: &Program,
    method: MethodId,
    code: &Code,
) -> Result<(), AllocError>
    requires classes { HasClassNumbers program.now }
    requires few { length code.now.bytes ≤ 65535 }
    requires code { (method_at program.now method.0).code ≡ Some code.now }
    ensures { OnOk result (out.new.items ≡ out.old.items ++ flat_map (spots_at program.now method.0) (starts_in code.now)) }
{
    let size = code.bytes.as_slice().len();
    let mut left = size;
    let mut at = 0;
    while left > 0 {
        if at as usize >= size {
            return Ok(());
        }
        put_spot_at(alloc, out, program, method, code, at)?;
        let Some(length) = size_at(code, at) else {
            return Ok(());
        };
        at += length;
        left -= 1;
    }
    Ok(())
}

/// Puts the instructions of a method that lack something.
fn put_spots_of(
    alloc: Global,
    out: &mut Vec<Spot>,
    program: &Program,
    method: MethodId,
) -> Result<(), AllocError>
    requires classes { HasClassNumbers program.now }
    requires codes { list_all (λ m. has_short_code m.code) program.now.methods ≡ true }
    ensures { OnOk result (out.new.items ≡ out.old.items ++ spots_of program.now method.0) }
{
    match code_of(program, method) {
        Some(code) => put_spots_in(alloc, out, program, method, code),
        None => Ok(()),
    }
}

/// Puts the start, if it lacks something.
fn put_first(alloc: Global, out: &mut Vec<Spot>, program: &Program) -> Result<(), AllocError>
    requires { HasClassNumbers program.now }
    ensures { OnOk result (out.new.items ≡ out.old.items ++ first_spots program.now) }
{
    let mut lacks = Vec::new(alloc);
    let class = class_of_method(program, program.main);
    put_initialisation(alloc, &mut lacks, program, class)?;
    put_spot(out, program.main, 0, lacks)
}

/// Each instruction of a program at which a run can end as unsupported, with what it lacks: the start first, and then the methods by
/// their numbers, each from its first instruction on. No run ends so elsewhere (`all_listed`). It takes as many steps as the program has
/// instructions, and for each call by its receiver as many as the program has classes. Where there is no list, memory was wanting.
pub fn spots(alloc: Global, program: &Program) -> Result<Vec<Spot>, AllocError>
    requires classes { HasClassNumbers program.now }
    requires codes { list_all (λ m. has_short_code m.code) program.now.methods ≡ true }
    ensures { IfOk result (λ found. found.items ≡ spots program.now) }
{
    let mut out = Vec::new(alloc);
    put_first(alloc, &mut out, program)?;
    for number in 0..program.methods.len() {
        let method = MethodId(next_number(number)?);
        put_spots_of(alloc, &mut out, program, method)?;
    }
    Ok(out)
}
