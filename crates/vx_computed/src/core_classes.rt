//! The core classes at work.

ghost use Rattle.vx_computed.specs.CoreClasses.{Enums, Numbers, Texts, OverlappingCopy, Literals, Assertion};

/// The core classes at work.
pub fn core_runs()
    // An enum.
    ensures enums { Enums }
    // Numbers and booleans.
    ensures numbers { Numbers }
    // Texts.
    ensures texts { Texts }
    // A copy within one array, and a range outside, which has no message.
    ensures overlapping_copy { OverlappingCopy }
    // Equal literals are one object.
    ensures literals { Literals }
    // An assertion error of an object.
    ensures assertion { Assertion }
{}
