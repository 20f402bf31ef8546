//! What a verdict rests on holds of programs that class files link to, so no run of one whose verdict is yes ends as illegal.
#![tactic(auto)]

ghost use Rattle.vx_sound_linked.specs.Law.{LinkedAreSound, LinkedHaveGrids, LinkedHaveNatives, LinkedNeverIllegal};

/// An instruction that makes arrays with their parts gives a length for one dimension at least, and for no more than the descriptor that it names has (JVMS 4.9.1).
pub fn linked_have_grids()
    ensures { LinkedHaveGrids }
{}

/// A native method has the form of its number, which there is, and stands in the class of its number or, as the constructors of exceptions do, below it.
pub fn linked_have_natives()
    ensures { LinkedHaveNatives }
{}

/// A program that class files link to has all that a verdict rests on: its classes, members, objects, first values, methods that are begun, native methods and arrays.
pub fn linked_are_sound()
    ensures { LinkedAreSound }
{}

/// So no run of one whose methods all have a typing ends as illegal, in any configuration and with any limit (JVMS 4.10).
pub fn linked_never_illegal()
    ensures { LinkedNeverIllegal }
{}
