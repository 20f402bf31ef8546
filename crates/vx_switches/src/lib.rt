//! The jumps of switches, which stand in the code (JVMS 6.5 tableswitch, lookupswitch).
#![tactic(auto)]

ghost use Rattle.std.specs.Prelude.{◌≡◌, ◌<◌, ◌^◌, slice_index};
ghost use Rattle.vx_opcode.specs.Numbers.{s4};
ghost use Rattle.vx_switches.specs.Switches.{pair_jump, table_jump};
ghost use Rattle.vx_value.specs.Arithmetic.{same_int};

/// How many bytes of the code a jump or a key of a table takes.
const JUMP_BYTES: usize = 4;

/// How many bytes a key with its jump takes.
const PAIR_BYTES: usize = 8;

/// A byte of the code, or 0 behind its end.
fn byte_at(code: &[u8], at: usize) -> u8
    ensures { result ≡ slice_index code.now at }
{
    match code.get(at) {
        Some(byte) => *byte,
        None => 0,
    }
}

/// The signed number of four bytes at a place of the code, the highest byte first.
#[tactic(auto, unfolding(vx_opcode::specs::Numbers::s4, vx_opcode::specs::Numbers::u4))]
fn number_at(code: &[u8], at: usize) -> i32
    requires { at < 2 ^ 40 }
    ensures { result ≡ s4 code.now at }
{
    i32::from_be_bytes([
        byte_at(code, at),
        byte_at(code, at + 1),
        byte_at(code, at + 2),
        byte_at(code, at + 3),
    ])
}

/// The jump of a key in a table of jumps for the keys from `low` to `high`, which stand from the place `first` on.
pub fn table_jump(code: &[u8], fallback: i32, low: i32, high: i32, first: u32, key: i32) -> i32
    ensures { result ≡ table_jump code.now fallback low high first key }
{
    if low <= key && key <= high {
        number_at(
            code,
            first as usize + JUMP_BYTES * key.abs_diff(low) as usize,
        )
    } else {
        fallback
    }
}

/// Whether the pair at a place of the code has the key.
fn has_key(code: &[u8], at: usize, key: i32) -> bool
    requires { at < 2 ^ 40 }
    ensures { result ≡ same_int (s4 code.now at) key }
{
    number_at(code, at) == key
}

/// The jump of the first of the pairs from the place `first` on that has the key.
pub fn pair_jump(code: &[u8], key: i32, fallback: i32, pairs: u32, first: u32) -> i32
    ensures { result ≡ pair_jump code.now key fallback pairs first }
{
    for pair in 0..pairs {
        let at = first as usize + PAIR_BYTES * pair as usize;
        if has_key(code, at, key) {
            return number_at(code, at + JUMP_BYTES);
        }
    }
    fallback
}
