//! The law of linked programs: they keep to the bounds of class files.
#![tactic(auto)]

ghost use Rattle.vx_program_bounds.specs.Law.{LinkedAreBounded};

/// The law of linked programs: at most 1,024 classes that were read, linked with the core classes, make a program whose parts
/// numbers of 32 bits name, and whose options' fields are those of options of the model.
pub fn linked_are_bounded()
    ensures { LinkedAreBounded }
{}
