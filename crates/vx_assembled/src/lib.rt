//! The law of the assembler: what is assembled is a class.
#![tactic(auto)]

ghost use Rattle.vx_assembled.specs.Law.{AssembledAreClasses};

/// The law of the assembler: the class that a source names meets every check of the reader of class files, and its pool has the
/// names of its attributes. So a reading of the bytes that spell it gives it back.
pub fn assembled_are_classes()
    ensures { AssembledAreClasses }
{}
