//! The law that a typing of a method keeps to what its instructions make of types.

ghost use Rattle.vx_flow.specs.Flowing.{TypingsFlow};

/// At each position that a typing covers, the operands fit in the method's greatest stack before the instruction too. So it is the same for
/// the verdict over a program whether that is asked of an instruction or of the typing.
pub fn typings_flow()
    ensures { TypingsFlow }
{}
