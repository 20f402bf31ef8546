//! Values of local variables, operands and cells, and the states of initialisation.

use crate::exact::Exact;

/// A value of a local variable, an operand or a cell (JVMS 2.2). `Text` stands only in the text cell of a String or
/// StringBuilder object.
#[derive(Clone, Copy, Debug, PartialEq, Eq, PartialOrd, Ord)]
pub enum Slot {
    /// No value: a local that is not set, or the second half of a long.
    Top,
    Int(i32),
    Long(i64),
    Null,
    /// The number of an object.
    Ref(u64),
    /// The number of a text.
    Text(u64),
}

/// How far the initialisation of a class has come (JVMS 5.5).
#[derive(Clone, Copy, Debug, PartialEq, Eq, PartialOrd, Ord)]
pub enum InitState {
    Not,
    Running,
    Done,
    /// The initialisation ended with an exception.
    Failed,
}

impl Exact for InitState {
    ghost use Rattle.vx_value.specs.Slot.{init_state_exact};

    ghost exact = { init_state_exact };
}

impl Exact for Slot {
    ghost use Rattle.vx_value.specs.Slot.{slot_exact};

    ghost exact = { slot_exact };
}
