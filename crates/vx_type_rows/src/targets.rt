//! The positions to which an instruction leads (JVMS 6.5). A jump is relative to the opcode; those of a switch stand in the code.

ghost use Rattle.std.specs.Prelude.{◌≡◌, ◌<◌, ◌≤◌, ◌+◌, ◌*◌, ◌-◌, ◌^◌, IfOk, OnOk, ◌++◌, ◌∷◌, [], length};
ghost use Rattle.vx_types.specs.Flow.{EntriesFit, target, targets_from, targets_of};

use std::alloc::{AllocError, Global};
use vx_java::Operation;
use vx_opcode::{keys, s4};

/// How many bytes of the code a jump of a table takes, and how many a key with its jump (JVMS 6.5 tableswitch, lookupswitch).
const JUMP_BYTES: usize = 4;

const PAIR_BYTES: usize = 8;

/// The position that is so far from another, or 0 before the code.
fn target(at: u32, offset: i32) -> u32
    requires { at < 2 ^ 16 }
    ensures { result ≡ target at offset }
{
    let target = i64::from(at) + i64::from(offset);
    if target < 0 { 0 } else { target as u32 }
}

/// A jump, and what stands behind the instruction, behind the positions that are there.
fn put_branch(targets: &mut Vec<u32>, at: u32, size: u32, offset: i32) -> Result<(), AllocError>
    requires { at + size < 2 ^ 16 }
    ensures { OnOk result (targets.new.items ≡ targets.old.items ++ target at offset ∷ (at + size) ∷ []) }
{
    targets.push(target(at, offset))?;
    targets.push(at + size)?;
    Ok(())
}

/// The positions of the jumps that stand so many bytes apart from a place on, for each of so many keys, behind those that are there.
fn put_targets(
    targets: &mut Vec<u32>,
    code: &[u8],
    at: u32,
    first: usize,
    step: usize,
    keys: usize,
) -> Result<(), AllocError>
    requires place { at < 2 ^ 16 }
    requires size { length code.now < 2 ^ 16 }
    requires step { (4 ≤ step) × (step ≤ 8) }
    requires entries { first + step * keys ≤ length code.now + (step - 4) }
    ensures { OnOk result (targets.new.items ≡ targets.old.items ++ targets_from code.now at first step keys) }
{
    for key in 0..keys {
        targets.push(target(at, s4(code, first + step * key)))?;
    }
    Ok(())
}

/// The positions of a `tableswitch`, behind those that are there.
fn put_table(
    targets: &mut Vec<u32>,
    code: &[u8],
    at: u32,
    fallback: i32,
    first: u32,
    keys: u64,
) -> Result<(), AllocError>
    requires place { at < 2 ^ 16 }
    requires size { length code.now < 2 ^ 16 }
    requires entries { first + 4 * keys ≤ length code.now }
    ensures { OnOk result (targets.new.items ≡ targets.old.items ++ target at fallback ∷ targets_from code.now at first 4 keys) }
{
    targets.push(target(at, fallback))?;
    put_targets(targets, code, at, first as usize, JUMP_BYTES, keys as usize)?;
    Ok(())
}

/// The positions of a `lookupswitch`, behind those that are there.
fn put_lookup(
    targets: &mut Vec<u32>,
    code: &[u8],
    at: u32,
    fallback: i32,
    first: u32,
    pairs: u32,
) -> Result<(), AllocError>
    requires place { at < 2 ^ 16 }
    requires size { length code.now < 2 ^ 16 }
    requires entries { first + 8 * pairs ≤ length code.now }
    ensures { OnOk result (targets.new.items ≡ targets.old.items ++ target at fallback ∷ targets_from code.now at (first + 4) 8 pairs) }
{
    targets.push(target(at, fallback))?;
    let jumps = first as usize + JUMP_BYTES;
    put_targets(targets, code, at, jumps, PAIR_BYTES, pairs as usize)?;
    Ok(())
}

/// The positions to which an operation at a position leads, whose instruction has so many bytes, behind those that are there.
fn put_targets_of(
    targets: &mut Vec<u32>,
    code: &[u8],
    at: u32,
    size: u32,
    operation: Operation,
) -> Result<(), AllocError>
    requires size { length code.now < 2 ^ 16 }
    requires within { at + size ≤ length code.now }
    requires entries { EntriesFit code.now operation }
    ensures { OnOk result (targets.new.items ≡ targets.old.items ++ targets_of code.now at size operation) }
{
    match operation {
        Operation::IfInt(_, offset) => put_branch(targets, at, size, offset),
        Operation::IfInts(_, offset) => put_branch(targets, at, size, offset),
        Operation::IfSame(_, offset) => put_branch(targets, at, size, offset),
        Operation::IfNull(_, offset) => put_branch(targets, at, size, offset),
        Operation::Goto(offset) => {
            targets.push(target(at, offset))?;
            Ok(())
        }
        Operation::SwitchTable {
            fallback,
            low,
            high,
            first,
        } => put_table(targets, code, at, fallback, first, keys(low, high)),
        Operation::SwitchLookup {
            fallback,
            pairs,
            first,
        } => put_lookup(targets, code, at, fallback, first, pairs),
        _ => {
            targets.push(at + size)?;
            Ok(())
        }
    }
}

/// The positions to which an operation at a position leads, whose instruction has so many bytes.
pub fn targets_of(
    alloc: Global,
    code: &[u8],
    at: u32,
    size: u32,
    operation: Operation,
) -> Result<Vec<u32>, AllocError>
    requires size { length code.now < 2 ^ 16 }
    requires within { at + size ≤ length code.now }
    requires entries { EntriesFit code.now operation }
    ensures { IfOk result (λ targets. targets.items ≡ targets_of code.now at size operation) }
{
    let mut targets = Vec::new(alloc);
    put_targets_of(&mut targets, code, at, size, operation)?;
    Ok(targets)
}
