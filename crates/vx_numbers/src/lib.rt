//! What the arithmetic instructions compute of plain numbers (JVMS 6.5). No call takes memory.
#![tactic(auto)]

ghost use Rattle.std.specs.Prelude.{◌≡◌, if◌then◌else◌};
ghost use Rattle.std.specs.Int.{w32, w64};
ghost use Rattle.vx_value.specs.Arithmetic.{int_op_of, long_op_of, negation, shift_int_of, shift_long_of, compare_long_of, narrow_of, negative, long_to_int as int_of_long};

use vx_value::{IntOp, Narrow, ShiftOp};

/// iadd, isub, imul, idiv, irem, iand, ior, ixor: results wrap, division goes toward zero. `None` exactly where the
/// divisor is 0.
pub fn int_op(op: IntOp, a: i32, b: i32) -> Option<i32>
    ensures { result ≡ int_op_of op a b }
{
    match op {
        IntOp::Add => Some(a.wrapping_add(b)),
        IntOp::Sub => Some(a.wrapping_sub(b)),
        IntOp::Mul => Some(a.wrapping_mul(b)),
        IntOp::Div => int_quotient(a, b),
        IntOp::Rem => int_remainder(a, b),
        IntOp::And => Some(a & b),
        IntOp::Or => Some(a | b),
        IntOp::Xor => Some(a ^ b),
    }
}

fn int_quotient(a: i32, b: i32) -> Option<i32>
    ensures { result ≡ int_op_of IntOp.Div a b }
{
    if b == 0 {
        return None;
    }
    Some(a.wrapping_div(b))
}

fn int_remainder(a: i32, b: i32) -> Option<i32>
    ensures { result ≡ int_op_of IntOp.Rem a b }
{
    if b == 0 {
        return None;
    }
    Some(a.wrapping_rem(b))
}

/// ladd, lsub, lmul, ldiv, lrem, land, lor, lxor: as the operations on ints.
pub fn long_op(op: IntOp, a: i64, b: i64) -> Option<i64>
    ensures { result ≡ long_op_of op a b }
{
    match op {
        IntOp::Add => Some(a.wrapping_add(b)),
        IntOp::Sub => Some(a.wrapping_sub(b)),
        IntOp::Mul => Some(a.wrapping_mul(b)),
        IntOp::Div => long_quotient(a, b),
        IntOp::Rem => long_remainder(a, b),
        IntOp::And => Some(a & b),
        IntOp::Or => Some(a | b),
        IntOp::Xor => Some(a ^ b),
    }
}

fn long_quotient(a: i64, b: i64) -> Option<i64>
    ensures { result ≡ long_op_of IntOp.Div a b }
{
    if b == 0 {
        return None;
    }
    Some(a.wrapping_div(b))
}

fn long_remainder(a: i64, b: i64) -> Option<i64>
    ensures { result ≡ long_op_of IntOp.Rem a b }
{
    if b == 0 {
        return None;
    }
    Some(a.wrapping_rem(b))
}

/// ineg: the least number stays.
pub fn negate_int(a: i32) -> i32
    ensures { result ≡ negation w32 a }
{
    0i32.wrapping_sub(a)
}

/// lneg: the least number stays.
pub fn negate_long(a: i64) -> i64
    ensures { result ≡ negation w64 a }
{
    0i64.wrapping_sub(a)
}

/// The distance of an int from 0; that of the least one is itself.
pub fn absolute_of_int(a: i32) -> i32
    ensures { result ≡ (if negative a then negation w32 a else a) }
{
    if a < 0 { negate_int(a) } else { a }
}

/// The distance of a long from 0; that of the least one is itself.
pub fn absolute_of_long(a: i64) -> i64
    ensures { result ≡ (if negative a then negation w64 a else a) }
{
    if a < 0 { negate_long(a) } else { a }
}

/// ishl, ishr, iushr: the distance is the lowest five bits.
pub fn shift_int(op: ShiftOp, a: i32, n: i32) -> i32
    ensures { result ≡ shift_int_of op a n }
{
    let distance = n.cast_unsigned() % 32;
    match op {
        ShiftOp::Left => a.wrapping_shl(distance),
        ShiftOp::Right => a.wrapping_shr(distance),
        ShiftOp::Unsigned => a.cast_unsigned().wrapping_shr(distance).cast_signed(),
    }
}

/// lshl, lshr, lushr: the distance is an int, of which the lowest six bits count.
pub fn shift_long(op: ShiftOp, a: i64, n: i32) -> i64
    ensures { result ≡ shift_long_of op a n }
{
    let distance = n.cast_unsigned() % 64;
    match op {
        ShiftOp::Left => a.wrapping_shl(distance),
        ShiftOp::Right => a.wrapping_shr(distance),
        ShiftOp::Unsigned => a.cast_unsigned().wrapping_shr(distance).cast_signed(),
    }
}

/// lcmp: -1, 0 or 1.
pub fn compare_long(a: i64, b: i64) -> i32
    ensures { result ≡ compare_long_of a b }
{
    if a < b {
        -1
    } else if b < a {
        1
    } else {
        0
    }
}

/// i2b, i2c, i2s, and for a boolean the lowest bit.
pub fn narrow(to: Narrow, a: i32) -> i32
    ensures { result ≡ narrow_of to a }
{
    match to {
        Narrow::Byte => i32::from(((a.cast_unsigned() % 256) as u8).cast_signed()),
        Narrow::Char => (a.cast_unsigned() % 65_536) as i32,
        Narrow::Short => i32::from(((a.cast_unsigned() % 65_536) as u16).cast_signed()),
        Narrow::Bool => (a.cast_unsigned() % 2) as i32,
    }
}

/// l2i: the lowest 32 bits.
pub fn long_to_int(a: i64) -> i32
    ensures { result ≡ int_of_long a }
{
    ((a.cast_unsigned() % 4_294_967_296) as u32).cast_signed()
}
