//! What an instruction makes of its operands at one configuration.

use vx_value::{ClassId, Exact, Slot, Stream};

/// What an instruction makes of its operands at one configuration.
#[derive(Clone, Copy, Debug, PartialEq, Eq, PartialOrd, Ord)]
pub enum Answer {
    /// A rule of the instruction is broken.
    Illegal,
    /// An exception of the class, with the text of this number as its message.
    Raise(ClassId, Option<u64>),
    /// The value is put on the operands that are left, if it fits, and the run goes past the instruction.
    Push(Slot),
    /// The run goes to the position.
    Jump(u32),
    /// The run goes past the instruction with the operands that are left.
    Pass,
    /// As `Push`, of an instruction that asked for room before.
    Give(Slot),
    /// The text of this number is written on the stream, and the run goes past the instruction with the operands that are left.
    Write(Stream, u64),
    /// The run ends with this code.
    Exit(i32),
    /// The object is thrown; a slot that is no object is held nowhere.
    Throw(Slot),
}

impl Exact for Answer {
    ghost use Rattle.vx_group_states.specs.Answers.{answer_exact};

    ghost exact = { answer_exact };
}
