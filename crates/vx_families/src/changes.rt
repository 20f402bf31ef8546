//! Laws of changes in a set of configurations.

ghost use Rattle.vx_families.specs.Laws.{AttemptsFollow, ChangesFollow, OutcomesStay, StaticsChangeIn};

use vx_space::Space;

/// Two changes, one after the other, are one.
pub fn changes_follow<S: Space>()
    ensures { ChangesFollow S S.Id }
{}

/// A change of static fields and initialisation states is one in each set outside of which it makes nothing else.
pub fn statics_change_in<S: Space>()
    ensures { StaticsChangeIn S S.Id }
{}

/// Outcomes in a set that a change leaves alone stay outcomes.
pub fn outcomes_stay<S: Space>()
    ensures { OutcomesStay S S.Id }
{}

/// An attempt whose heap changes before its group is divided.
pub fn attempts_follow<S: Space>()
    ensures { AttemptsFollow S S.Id }
{}
