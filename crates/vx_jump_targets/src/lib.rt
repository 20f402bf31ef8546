//! The law of jump targets: in a linked program each jump and each handler is the place of an instruction.
#![tactic(auto)]

ghost use Rattle.vx_jump_targets.specs.Law.{LinkedAreWellPlaced};

/// The law of jump targets: classes that were read, linked with the core classes, make a program in whose codes each jump and each
/// handler is the place of an instruction (JVMS 4.9.1).
pub fn linked_are_well_placed()
    ensures { LinkedAreWellPlaced }
{}
