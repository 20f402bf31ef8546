//! Types of local variables and operands.

ghost use Rattle.vx_computed.specs.Typed.{ArraysFit, BytesLoaded, ClassesFit, ComponentsLoaded, EndOfCode, FloatsNamed, HalvesOfLongs, InterfacesCountAsObject, MissingClassesFit, MissingClassesNamed, SpecialCalls, WordsMoved};

/// Which types fit, and what instructions make of them.
pub fn typed_instructions()
    // An interface counts as Object.
    ensures interfaces { InterfacesCountAsObject }
    // Classes by their superclasses.
    ensures classes { ClassesFit }
    // Classes that aren't there.
    ensures missing { MissingClassesFit }
    // Arrays by their components.
    ensures arrays { ArraysFit }
    // Both halves of a long.
    ensures halves { HalvesOfLongs }
    // Stack forms.
    ensures words { WordsMoved }
    // Components of arrays of references.
    ensures components { ComponentsLoaded }
    // Arrays of bytes and of booleans.
    ensures bytes { BytesLoaded }
    // Instructions that name a class that isn't there.
    ensures named { MissingClassesNamed }
    // Floats.
    ensures floats { FloatsNamed }
    // Calls of invokespecial.
    ensures special { SpecialCalls }
    // The end of the code.
    ensures last { EndOfCode }
{}
