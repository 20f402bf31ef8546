//! What an instruction does, by name (JVMS 6.5).

ghost use Rattle.std.specs.Prelude.{◌≡◌};
ghost use Rattle.vx_java.specs.Jumps.{passes};

use vx_value::{IntOp, Narrow, ShiftOp};

/// The sort of a value: an int, a long or a reference.
#[derive(Clone, Copy, PartialEq, Eq)]
pub enum Sort {
    Int,
    Long,
    Reference,
}

/// The elements of the arrays that an array load or store works on. `Bytes` are those of `boolean` arrays too.
#[derive(Clone, Copy)]
pub enum Element {
    Ints,
    Longs,
    References,
    Bytes,
    Chars,
    Shorts,
}

/// How a stack form moves values.
#[derive(Clone, Copy)]
pub enum Shuffle {
    Pop,
    Pop2,
    Dup,
    DupX1,
    DupX2,
    Dup2,
    Dup2X1,
    Dup2X2,
    Swap,
}

/// A test of an int against 0, or of two ints.
#[derive(Clone, Copy)]
pub enum Test {
    Eq,
    Ne,
    Lt,
    Ge,
    Gt,
    Le,
}

impl Test {
    /// Whether two ints pass the test.
    pub fn passes(self, a: i32, b: i32) -> bool
        ensures { result ≡ passes self a b }
    {
        match self {
            Test::Eq => a == b,
            Test::Ne => a != b,
            Test::Lt => a < b,
            Test::Ge => a >= b,
            Test::Gt => a > b,
            Test::Le => a <= b,
        }
    }
}

/// The four calls.
#[derive(Clone, Copy)]
pub enum Mode {
    Virtual,
    Special,
    Static,
    Interface,
}

/// What an instruction does, with its operands. The index of a pool entry is that of the file, a jump is relative to the opcode.
#[derive(Clone, Copy)]
pub enum Operation {
    Nop,
    PushNull,
    PushInt(i32),
    PushLong(i64),
    /// `ldc`, `ldc_w`, `ldc2_w` of a pool entry.
    PushEntry(u16),
    /// A load from a local variable.
    Load(Sort, u16),
    /// A store into a local variable.
    Store(Sort, u16),
    LoadElement(Element),
    StoreElement(Element),
    Stack(Shuffle),
    IntArithmetic(IntOp),
    LongArithmetic(IntOp),
    IntNegate,
    LongNegate,
    IntShift(ShiftOp),
    LongShift(ShiftOp),
    /// `iinc`: a local variable and what is added to it.
    Increase(u16, i32),
    IntToLong,
    LongToInt,
    IntNarrow(Narrow),
    LongCompare,
    /// A jump where an int and 0 pass a test.
    IfInt(Test, i32),
    /// A jump where two ints pass a test.
    IfInts(Test, i32),
    /// A jump where two references are one, or where they are not.
    IfSame(bool, i32),
    /// A jump where a reference is null, or where it is not.
    IfNull(bool, i32),
    Goto(i32),
    /// `tableswitch`; the jumps stand in the code from `first` on.
    SwitchTable {
        fallback: i32,
        low: i32,
        high: i32,
        first: u32,
    },
    /// `lookupswitch`; the pairs stand in the code from `first` on.
    SwitchLookup {
        fallback: i32,
        pairs: u32,
        first: u32,
    },
    /// A return of a value of a sort, or of none.
    Return(Option<Sort>),
    GetStatic(u16),
    PutStatic(u16),
    GetField(u16),
    PutField(u16),
    Invoke(Mode, u16),
    New(u16),
    /// `newarray` with the number of its type, from 4 to 11.
    NewPrimitives(u32),
    /// `anewarray`.
    NewReferences(u16),
    /// `multianewarray` with the number of its dimensions.
    NewGrid(u16, u8),
    Length,
    Throw,
    /// `monitorenter` and `monitorexit`.
    Monitor,
    CheckCast(u16),
    InstanceOf(u16),
    /// An instruction that is left out, by the number of its word: 1 float, 2 subroutine, 3 dynamic.
    Refuse(u8),
}
