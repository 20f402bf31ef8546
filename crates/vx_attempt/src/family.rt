//! The family of an instruction.

ghost use Rattle.std.specs.Prelude.{◌≡◌, true};
ghost use Rattle.vx_attempt.specs.Families.{is_of};

use vx_java::Operation;

/// A family of instructions.
#[derive(Clone, Copy, Debug, PartialEq, Eq)]
pub enum Family {
    /// Numbers and jumps, and instructions that are left out.
    Numbers,
    /// Constants and local variables.
    Locals,
    /// The forms of the operand stack.
    Forms,
    Returns,
    /// Static fields.
    Statics,
    Objects,
    Arrays,
    Calls,
    /// Objects that are thrown.
    Throws,
}

/// The family of an operation.
pub fn family_of(operation: Operation) -> Family
    ensures { is_of result operation ≡ true }
{
    match operation {
        Operation::Nop
        | Operation::PushNull
        | Operation::PushInt(_)
        | Operation::PushLong(_)
        | Operation::PushEntry(_)
        | Operation::Load(_, _)
        | Operation::Store(_, _)
        | Operation::Increase(_, _) => Family::Locals,
        Operation::Stack(_) => Family::Forms,
        Operation::IntArithmetic(_)
        | Operation::LongArithmetic(_)
        | Operation::IntNegate
        | Operation::LongNegate
        | Operation::IntShift(_)
        | Operation::LongShift(_)
        | Operation::IntToLong
        | Operation::LongToInt
        | Operation::IntNarrow(_)
        | Operation::LongCompare
        | Operation::IfInt(_, _)
        | Operation::IfInts(_, _)
        | Operation::IfNull(_, _)
        | Operation::Goto(_)
        | Operation::SwitchTable { .. }
        | Operation::SwitchLookup { .. }
        | Operation::Refuse(_) => Family::Numbers,
        Operation::Return(_) => Family::Returns,
        Operation::GetStatic(_) | Operation::PutStatic(_) => Family::Statics,
        Operation::New(_)
        | Operation::GetField(_)
        | Operation::PutField(_)
        | Operation::CheckCast(_)
        | Operation::InstanceOf(_)
        | Operation::Monitor
        | Operation::IfSame(_, _) => Family::Objects,
        Operation::NewPrimitives(_)
        | Operation::NewReferences(_)
        | Operation::NewGrid(_, _)
        | Operation::LoadElement(_)
        | Operation::StoreElement(_)
        | Operation::Length => Family::Arrays,
        Operation::Invoke(_, _) => Family::Calls,
        Operation::Throw => Family::Throws,
    }
}
