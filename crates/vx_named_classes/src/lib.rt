//! The law of named classes: in a linked program each class has a name, and an instruction names its class by a text.
#![tactic(auto)]

ghost use Rattle.vx_named_classes.specs.Law.{LinkedAreNamed};

/// The law of named classes: classes that were read, linked with the core classes, make a program whose classes have names, and in
/// whose codes each instruction that names a class names it by a text with a byte at least (JVMS 4.4.1, 4.9.1).
pub fn linked_are_named()
    ensures { LinkedAreNamed }
{}
