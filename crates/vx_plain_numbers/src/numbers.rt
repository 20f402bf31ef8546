//! What the instructions of numbers and the jumps make of plain operands (JVMS 6.5).

ghost use Rattle.std.specs.Prelude.{◌≡◌};
ghost use Rattle.vx_plain_numbers.specs.Numbers.{are_one, branch_by, int_or, long_or, of_int, of_ints, of_long, of_longs, of_mixed, of_one, of_reference, of_same, of_two};

use crate::answer::Answer;
use vx_java::Operation;
use vx_numbers::{
    compare_long, int_op, long_op, long_to_int, narrow, negate_int, negate_long, shift_int,
    shift_long,
};
use vx_plain::Value;
use vx_switches::{pair_jump, table_jump};

/// Goes so far from the opcode, or past the instruction.
fn branch_by(taken: bool, offset: i32) -> Answer
    ensures { result ≡ branch_by taken offset }
{
    if taken {
        Answer::Jump(offset)
    } else {
        Answer::Pass
    }
}

/// What an instruction makes of an int.
fn of_int(code: &[u8], operation: Operation, a: i32) -> Answer
    ensures { result ≡ of_int code.now operation a }
{
    match operation {
        Operation::IntNegate => Answer::Push(Value::Int(negate_int(a))),
        Operation::IntToLong => Answer::Push(Value::Long(i64::from(a))),
        Operation::IntNarrow(to) => Answer::Push(Value::Int(narrow(to, a))),
        Operation::IfInt(test, offset) => branch_by(test.passes(a, 0), offset),
        Operation::SwitchTable {
            fallback,
            low,
            high,
            first,
        } => Answer::Jump(table_jump(code, fallback, low, high, first, a)),
        Operation::SwitchLookup {
            fallback,
            pairs,
            first,
        } => Answer::Jump(pair_jump(code, a, fallback, pairs, first)),
        _ => Answer::Illegal,
    }
}

/// What an instruction makes of a long.
fn of_long(operation: Operation, a: i64) -> Answer
    ensures { result ≡ of_long operation a }
{
    match operation {
        Operation::LongNegate => Answer::Push(Value::Long(negate_long(a))),
        Operation::LongToInt => Answer::Push(Value::Int(long_to_int(a))),
        _ => Answer::Illegal,
    }
}

/// What an instruction makes of a reference.
fn of_reference(operation: Operation, is_null: bool) -> Answer
    ensures { result ≡ of_reference operation is_null }
{
    match operation {
        Operation::IfNull(wanted, offset) => branch_by(is_null == wanted, offset),
        _ => Answer::Illegal,
    }
}

/// What an instruction makes of the operand on top, where the code has the jumps of switches.
pub fn of_one(code: &[u8], operation: Operation, operand: Value) -> Answer
    ensures { result ≡ of_one code.now operation operand }
{
    match operand {
        Value::Int(a) => of_int(code, operation, a),
        Value::Long(a) => of_long(operation, a),
        Value::Null => of_reference(operation, true),
        Value::Ref(_) => of_reference(operation, false),
        Value::Top => Answer::Illegal,
    }
}

/// The value, or a division by zero.
fn int_or(value: Option<i32>) -> Answer
    ensures { result ≡ int_or value }
{
    match value {
        Some(n) => Answer::Push(Value::Int(n)),
        None => Answer::ByZero,
    }
}

/// The value, or a division by zero.
fn long_or(value: Option<i64>) -> Answer
    ensures { result ≡ long_or value }
{
    match value {
        Some(n) => Answer::Push(Value::Long(n)),
        None => Answer::ByZero,
    }
}

/// What an instruction makes of two ints.
fn of_ints(operation: Operation, a: i32, b: i32) -> Answer
    ensures { result ≡ of_ints operation a b }
{
    match operation {
        Operation::IntArithmetic(op) => int_or(int_op(op, a, b)),
        Operation::IntShift(op) => Answer::Push(Value::Int(shift_int(op, a, b))),
        Operation::IfInts(test, offset) => branch_by(test.passes(a, b), offset),
        _ => Answer::Illegal,
    }
}

/// What an instruction makes of two longs.
fn of_longs(operation: Operation, a: i64, b: i64) -> Answer
    ensures { result ≡ of_longs operation a b }
{
    match operation {
        Operation::LongArithmetic(op) => long_or(long_op(op, a, b)),
        Operation::LongCompare => Answer::Push(Value::Int(compare_long(a, b))),
        _ => Answer::Illegal,
    }
}

/// What an instruction makes of a long, and an int on top of it.
fn of_mixed(operation: Operation, a: i64, n: i32) -> Answer
    ensures { result ≡ of_mixed operation a n }
{
    match operation {
        Operation::LongShift(op) => Answer::Push(Value::Long(shift_long(op, a, n))),
        _ => Answer::Illegal,
    }
}

/// What an instruction makes of the two operands on top.
pub fn of_two(operation: Operation, upper: Value, lower: Value) -> Answer
    ensures { result ≡ of_two operation upper lower }
{
    match (upper, lower) {
        (Value::Int(b), Value::Int(a)) => of_ints(operation, a, b),
        (Value::Long(b), Value::Long(a)) => of_longs(operation, a, b),
        (Value::Int(n), Value::Long(a)) => of_mixed(operation, a, n),
        _ => Answer::Illegal,
    }
}

/// Whether two references are one; `None` where one of them is no reference.
pub fn are_one(upper: Value, lower: Value) -> Option<bool>
    ensures { result ≡ are_one upper lower }
{
    match (upper, lower) {
        (Value::Null, Value::Null) => Some(true),
        (Value::Null, Value::Ref(_)) => Some(false),
        (Value::Ref(_), Value::Null) => Some(false),
        (Value::Ref(b), Value::Ref(a)) => Some(a == b),
        _ => None,
    }
}

/// A jump where two references are one, or where they are not.
pub fn of_same(wanted: bool, offset: i32, one: Option<bool>) -> Answer
    ensures { result ≡ of_same wanted offset one }
{
    match one {
        Some(one) => branch_by(one == wanted, offset),
        None => Answer::Illegal,
    }
}
