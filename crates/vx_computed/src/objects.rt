//! References, calls by the receiver's class, methods of interfaces.

ghost use Rattle.vx_computed.specs.Objects.{References, InterfaceCall, DefaultMethod, ConflictingDefaults, StaticOfInterface, SpecialAbove};

/// References, calls by the class of the receiver, and methods of interfaces.
pub fn object_runs()
    // An object in one configuration, null in the other.
    ensures references { References }
    // A method selected by the class of the receiver.
    ensures interface_call { InterfaceCall }
    // A default method of an interface.
    ensures default_method { DefaultMethod }
    // A conflict of default methods.
    ensures conflicting_defaults { ConflictingDefaults }
    // A static method of an interface.
    ensures static_of_interface { StaticOfInterface }
    // A special call of a superclass begins above the current class.
    ensures special_above { SpecialAbove }
{}
