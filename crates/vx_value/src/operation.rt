//! Operations on plain numbers, by name.

/// An operation on two ints or two longs (JVMS 6.5).
#[derive(Clone, Copy, Debug, PartialEq, Eq)]
pub enum IntOp {
    Add,
    Sub,
    Mul,
    Div,
    Rem,
    And,
    Or,
    Xor,
}

/// A shift: to the left, to the right with the sign, to the right with zeros.
#[derive(Clone, Copy, Debug, PartialEq, Eq)]
pub enum ShiftOp {
    Left,
    Right,
    Unsigned,
}

/// What an int is narrowed to.
#[derive(Clone, Copy, Debug, PartialEq, Eq)]
pub enum Narrow {
    Byte,
    Char,
    Short,
    Bool,
}
