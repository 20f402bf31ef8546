//! The instructions of numbers and the jumps, by how many operands they take.

ghost use Rattle.std.specs.Prelude.{◌≡◌};
ghost use Rattle.vx_arith.specs.Family.{divides, is_of_numbers, is_quotient, takes_none, takes_one, takes_two};

use vx_java::Operation;
use vx_value::IntOp;

/// Whether it is a jump to one position, or an instruction that is left out.
pub fn takes_none(operation: Operation) -> bool
    ensures { result ≡ takes_none operation }
{
    matches!(operation, Operation::Goto(_) | Operation::Refuse(_))
}

/// Whether it is an instruction of numbers or a jump that takes one operand.
pub fn takes_one(operation: Operation) -> bool
    ensures { result ≡ takes_one operation }
{
    matches!(
        operation,
        Operation::IntNegate
            | Operation::LongNegate
            | Operation::IntToLong
            | Operation::LongToInt
            | Operation::IntNarrow(_)
            | Operation::IfInt(_, _)
            | Operation::IfNull(_, _)
            | Operation::SwitchTable { .. }
            | Operation::SwitchLookup { .. }
    )
}

/// Whether it is an instruction of numbers or a jump that takes two operands.
pub fn takes_two(operation: Operation) -> bool
    ensures { result ≡ takes_two operation }
{
    matches!(
        operation,
        Operation::IntArithmetic(_)
            | Operation::LongArithmetic(_)
            | Operation::IntShift(_)
            | Operation::LongShift(_)
            | Operation::LongCompare
            | Operation::IfInts(_, _)
    )
}

/// Whether it is an instruction of numbers, a jump, or an instruction that is left out.
pub fn is_of_numbers(operation: Operation) -> bool
    ensures { result ≡ is_of_numbers operation }
{
    takes_none(operation) || takes_one(operation) || takes_two(operation)
}

/// Whether it is a division or a remainder, which raises at a zero divisor.
pub fn divides(operation: Operation) -> bool
    ensures { result ≡ divides operation }
{
    match operation {
        Operation::IntArithmetic(op) | Operation::LongArithmetic(op) => is_quotient(op),
        _ => false,
    }
}

fn is_quotient(op: IntOp) -> bool
    ensures { result ≡ is_quotient op }
{
    matches!(op, IntOp::Div | IntOp::Rem)
}
