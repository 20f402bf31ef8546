//! The laws of runs.

ghost use Rattle.vx_spelled_ends.specs.Law.{EndsAreSpelled, FramesStand, LinkedAreSound, ReportsAreSpelled};

/// Classes that were read, linked with the core classes, make a sound program: its classes have names, its instructions name
/// classes by texts, and its jumps and handlers lead to instructions (JVMS 4.4.1, 4.9.1).
pub fn linked_are_sound()
    ensures { LinkedAreSound }
{}

/// In each state of each run of a sound program each frame stands at an instruction of its code, or at its end (JVMS 2.6, 4.9.1).
pub fn frames_stand()
    ensures { FramesStand }
{}

/// Each run of a sound program, with any limit, ends in a way whose words a report can spell, and uses at most as many attempts
/// as its limit.
pub fn ends_are_spelled()
    ensures { EndsAreSpelled }
{}

/// What the report of lockstep of a sound program says can be spelled: each piece has a text, each end has words, no number of
/// attempts is above the limit, and each of them has a configuration.
pub fn reports_are_spelled()
    ensures { ReportsAreSpelled }
{}
