//! The law of kept facts: where the frames of every run stand, and what it raises and throws.
#![tactic(auto)]

ghost use Rattle.vx_kept_facts.specs.Law.{FactsAreKept};

/// The law of kept facts: in every state of every run each frame's method has code, and each frame stands at an instruction of it, but
/// the frame on top may stand at the end; what is raised is Throwable or a class below it, and so is the class of what is thrown.
pub fn facts_are_kept()
    ensures { FactsAreKept }
{}
