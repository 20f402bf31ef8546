//! The checks of jumps and switches (JVMS 4.9.1): they lead to instructions, and switches are in order.

ghost use Rattle.std.specs.Prelude.{◌≡◌, ◌+◌, ◌-◌, ◌*◌, ◌^◌, ◌<◌, ◌≤◌, length, int_lt, All};
ghost use Rattle.vx_pool.specs.Reading.{Answers};
ghost use Rattle.vx_opcode.specs.Numbers.{s4};
ghost use Rattle.vx_opcode.specs.Decode.{TableFits};
ghost use Rattle.vx_pool.specs.Checks.{first_failing};
ghost use Rattle.vx_pool.specs.Instructions.{is_target, all_below, jump_checks, jumps_at, jumps_checked};

use crate::instructions::whole_at;
use crate::starts::Starts;
use crate::{ClassFault, refusal};
use vx_opcode::{Operand, keys, s4};

fn is_target(starts: &Starts, at: u32, jump: i32) -> bool
    requires { at < 2 ^ 16 }
    ensures { result ≡ is_target starts.now at jump }
{
    let target = at as i64 + i64::from(jump);
    target >= 0 && starts.has(target as u32)
}

/// Whether the jump at a place of the code leads to an instruction.
fn leads(starts: &Starts, code: &[u8], at: u32, place: u32) -> bool
    requires spot { at < 2 ^ 16 }
    requires size { length code.now < 2 ^ 16 }
    requires fits { place + 4 ≤ length code.now }
    ensures { result ≡ is_target starts.now at (s4 code.now place) }
{
    is_target(starts, at, s4(code, place as usize))
}

/// Whether each of so many jumps, one every `stride` bytes, leads to an instruction.
fn all_targets(starts: &Starts, code: &[u8], at: u32, count: u32, first: u32, stride: u32) -> bool
    requires place { at < 2 ^ 16 }
    requires size { length code.now < 2 ^ 16 }
    requires step { (4 ≤ stride) × (stride ≤ 8) }
    requires entries { first + stride * count ≤ length code.now + (stride - 4) }
    ensures { result ≡ all_below count (λ k. is_target starts.now at (s4 code.now (first + stride * k))) }
{
    for k in 0..count {
        if !leads(starts, code, at, first + stride * k) {
            return false;
        }
    }
    true
}

/// Whether the key of a pair is below the next one.
fn is_below_next(code: &[u8], first: u32, k: u32) -> bool
    requires size { length code.now < 2 ^ 16 }
    requires entries { first + 8 * k + 12 ≤ length code.now }
    ensures { result ≡ int_lt (s4 code.now (first + 8 * k)) (s4 code.now (first + 8 * k + 8)) }
{
    let key = (first + 8 * k) as usize;
    s4(code, key) < s4(code, key + 8)
}

/// Whether the keys of so many pairs ascend.
fn are_ascending(code: &[u8], pairs: u32, first: u32) -> bool
    requires size { length code.now < 2 ^ 16 }
    requires entries { first + 8 * pairs ≤ length code.now }
    ensures { result ≡ all_below (pairs - 1) (λ k. int_lt (s4 code.now (first + 8 * k)) (s4 code.now (first + 8 * k + 8))) }
{
    for k in 0..pairs.saturating_sub(1) {
        if !is_below_next(code, first, k) {
            return false;
        }
    }
    true
}

/// The checks of the jumps of an instruction that stands at `place`.
fn jumps(
    starts: &Starts,
    code: &[u8],
    at: u32,
    operand: Operand,
    place: u64,
) -> Result<(), ClassFault>
    requires spot { at < 2 ^ 16 }
    requires size { length code.now < 2 ^ 16 }
    requires entries { TableFits code.now operand }
    ensures { Answers result (first_failing place (jump_checks starts.now code.now at operand)) }
{
    match operand {
        Operand::Jump(jump) => {
            if is_target(starts, at, jump) {
                Ok(())
            } else {
                refusal(place, 11)
            }
        }
        Operand::Table {
            fallback,
            low,
            high,
            first,
        } => {
            let count = keys(low, high) as u32;
            if !(is_target(starts, at, fallback)
                && all_targets(starts, code, at, count, first, 4))
            {
                refusal(place, 11)
            } else if low > high {
                refusal(place, 12)
            } else {
                Ok(())
            }
        }
        Operand::Lookup {
            fallback,
            pairs,
            first,
        } => {
            if !(is_target(starts, at, fallback)
                && all_targets(starts, code, at, pairs, first + 4, 8))
            {
                refusal(place, 11)
            } else if !are_ascending(code, pairs, first) {
                refusal(place, 12)
            } else {
                Ok(())
            }
        }
        _ => Ok(()),
    }
}

/// The checks of the jumps of the instruction that stands at a place of the code.
fn jumps_at(starts: &Starts, code: &[u8], at: u32, base: u64) -> Result<(), ClassFault>
    requires place { at < length code.now }
    requires size { length code.now < 2 ^ 16 }
    requires fits { base + length code.now < 2 ^ 64 }
    ensures { Answers result (jumps_at starts.now code.now base at) }
{
    let instruction = whole_at(code, at, base)?;
    jumps(starts, code, at, instruction.operand, base + u64::from(at))
}

/// The checks of the jumps of all instructions.
pub fn check_jumps(starts: &Starts, code: &[u8], base: u64) -> Result<(), ClassFault>
    requires below { All (λ s. s < length code.now) starts.now }
    requires size { length code.now < 2 ^ 16 }
    requires fits { base + length code.now < 2 ^ 64 }
    ensures { Answers result (jumps_checked starts.now code.now base) }
{
    for start in starts.as_slice() {
        jumps_at(starts, code, *start, base)?;
    }
    Ok(())
}
