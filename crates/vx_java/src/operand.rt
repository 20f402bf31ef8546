//! The numbers of an operand.

ghost use Rattle.std.specs.Prelude.{◌≡◌};
ghost use Rattle.vx_java.specs.Operation.{dimensions_of, entry_of, local_of, number_of, switch_of};

use crate::operation::Operation;
use vx_opcode::Operand;

/// The number of a local variable, or 0 where the operand has none.
pub fn local_of(operand: &Operand) -> u16
    ensures { result ≡ local_of operand.now }
{
    match *operand {
        Operand::Local(local) | Operand::Increment(local, _) => local,
        _ => 0,
    }
}

/// The number or the jump, or 0 where the operand has none.
pub fn number_of(operand: &Operand) -> i32
    ensures { result ≡ number_of operand.now }
{
    match *operand {
        Operand::Number(number) | Operand::Jump(number) => number,
        Operand::Increment(_, by) => i32::from(by),
        _ => 0,
    }
}

/// The place in the pool, or 0 where the operand has none.
pub fn entry_of(operand: &Operand) -> u16
    ensures { result ≡ entry_of operand.now }
{
    match *operand {
        Operand::Pool(entry) | Operand::Interface(entry, _) | Operand::Dimensions(entry, _) => {
            entry
        }
        _ => 0,
    }
}

/// The number of dimensions, or 0 where the operand has none.
pub fn dimensions_of(operand: &Operand) -> u8
    ensures { result ≡ dimensions_of operand.now }
{
    match *operand {
        Operand::Dimensions(_, dimensions) => dimensions,
        _ => 0,
    }
}

/// The switch of a table or of pairs, or no operation where the operand is neither.
pub fn switch_of(operand: &Operand) -> Operation
    ensures { result ≡ switch_of operand.now }
{
    match *operand {
        Operand::Table {
            fallback,
            low,
            high,
            first,
        } => Operation::SwitchTable {
            fallback,
            low,
            high,
            first,
        },
        Operand::Lookup {
            fallback,
            pairs,
            first,
        } => Operation::SwitchLookup {
            fallback,
            pairs,
            first,
        },
        _ => Operation::Nop,
    }
}
