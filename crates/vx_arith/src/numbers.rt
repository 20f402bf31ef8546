//! What the instructions of numbers and the jumps make of plain operands (JVMS 6.5).

ghost use Rattle.std.specs.Prelude.{◌≡◌};
ghost use Rattle.vx_arith.specs.Numbers.{int_or, long_or, of_int, of_ints, of_long, of_longs, of_mixed, of_one, of_reference, of_two};

use crate::jumping::{branch_by, jump_by};
use crate::spot::Spot;
use vx_group_states::Answer;
use vx_java::Operation;
use vx_numbers::{
    compare_long, int_op, long_op, long_to_int, narrow, negate_int, negate_long, shift_int,
    shift_long,
};
use vx_switches::{pair_jump, table_jump};
use vx_value::Slot;

/// What an instruction makes of an int.
fn of_int(spot: &Spot, operation: Operation, a: i32) -> Answer
    ensures { result ≡ of_int spot.now operation a }
{
    match operation {
        Operation::IntNegate => Answer::Push(Slot::Int(negate_int(a))),
        Operation::IntToLong => Answer::Push(Slot::Long(i64::from(a))),
        Operation::IntNarrow(to) => Answer::Push(Slot::Int(narrow(to, a))),
        Operation::IfInt(test, offset) => branch_by(spot, test.passes(a, 0), offset),
        Operation::SwitchTable {
            fallback,
            low,
            high,
            first,
        } => jump_by(spot, table_jump(spot.code, fallback, low, high, first, a)),
        Operation::SwitchLookup {
            fallback,
            pairs,
            first,
        } => jump_by(spot, pair_jump(spot.code, a, fallback, pairs, first)),
        _ => Answer::Illegal,
    }
}

/// What an instruction makes of a long.
fn of_long(operation: Operation, a: i64) -> Answer
    ensures { result ≡ of_long operation a }
{
    match operation {
        Operation::LongNegate => Answer::Push(Slot::Long(negate_long(a))),
        Operation::LongToInt => Answer::Push(Slot::Int(long_to_int(a))),
        _ => Answer::Illegal,
    }
}

/// What an instruction makes of a reference.
fn of_reference(spot: &Spot, operation: Operation, is_null: bool) -> Answer
    ensures { result ≡ of_reference spot.now operation is_null }
{
    match operation {
        Operation::IfNull(wanted, offset) => branch_by(spot, is_null == wanted, offset),
        _ => Answer::Illegal,
    }
}

/// What an instruction makes of the operand on top.
pub fn of_one(spot: &Spot, operation: Operation, operand: Slot) -> Answer
    ensures { result ≡ of_one spot.now operation operand }
{
    match operand {
        Slot::Int(a) => of_int(spot, operation, a),
        Slot::Long(a) => of_long(operation, a),
        Slot::Null => of_reference(spot, operation, true),
        Slot::Ref(_) => of_reference(spot, operation, false),
        Slot::Top | Slot::Text(_) => Answer::Illegal,
    }
}

/// The value, or what comes of a zero divisor.
fn int_or(by_zero: Answer, value: Option<i32>) -> Answer
    ensures { result ≡ int_or by_zero value }
{
    match value {
        Some(n) => Answer::Push(Slot::Int(n)),
        None => by_zero,
    }
}

/// The value, or what comes of a zero divisor.
fn long_or(by_zero: Answer, value: Option<i64>) -> Answer
    ensures { result ≡ long_or by_zero value }
{
    match value {
        Some(n) => Answer::Push(Slot::Long(n)),
        None => by_zero,
    }
}

/// What an instruction makes of two ints.
fn of_ints(spot: &Spot, by_zero: Answer, operation: Operation, a: i32, b: i32) -> Answer
    ensures { result ≡ of_ints spot.now by_zero operation a b }
{
    match operation {
        Operation::IntArithmetic(op) => int_or(by_zero, int_op(op, a, b)),
        Operation::IntShift(op) => Answer::Push(Slot::Int(shift_int(op, a, b))),
        Operation::IfInts(test, offset) => branch_by(spot, test.passes(a, b), offset),
        _ => Answer::Illegal,
    }
}

/// What an instruction makes of two longs.
fn of_longs(by_zero: Answer, operation: Operation, a: i64, b: i64) -> Answer
    ensures { result ≡ of_longs by_zero operation a b }
{
    match operation {
        Operation::LongArithmetic(op) => long_or(by_zero, long_op(op, a, b)),
        Operation::LongCompare => Answer::Push(Slot::Int(compare_long(a, b))),
        _ => Answer::Illegal,
    }
}

/// What an instruction makes of a long, and an int on top of it.
fn of_mixed(operation: Operation, a: i64, n: i32) -> Answer
    ensures { result ≡ of_mixed operation a n }
{
    match operation {
        Operation::LongShift(op) => Answer::Push(Slot::Long(shift_long(op, a, n))),
        _ => Answer::Illegal,
    }
}

/// What an instruction makes of the two operands on top.
pub fn of_two(
    spot: &Spot,
    by_zero: Answer,
    operation: Operation,
    upper: Slot,
    lower: Slot,
) -> Answer
    ensures { result ≡ of_two spot.now by_zero operation upper lower }
{
    match (upper, lower) {
        (Slot::Int(b), Slot::Int(a)) => of_ints(spot, by_zero, operation, a, b),
        (Slot::Long(b), Slot::Long(a)) => of_longs(by_zero, operation, a, b),
        (Slot::Int(n), Slot::Long(a)) => of_mixed(operation, a, n),
        _ => Answer::Illegal,
    }
}
