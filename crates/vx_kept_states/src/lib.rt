//! The laws of kept facts for linked programs and for the state of all runs.
#![tactic(auto)]

ghost use Rattle.vx_kept_states.specs.Law.{LinkedAreRunnable, LinkedRunsKeepFacts, StatesKeepFacts};

use vx_space::Space;

/// The program that classes which were read are linked to can be run: it has what the law of kept facts asks of a program.
pub fn linked_are_runnable()
    ensures { LinkedAreRunnable }
{}

/// So its runs keep the facts.
pub fn linked_runs_keep_facts()
    ensures { LinkedRunsKeepFacts }
{}

/// And so does each state of all runs side by side that rounds lead to: at each configuration of each group, and in what an attempt
/// of a group comes to there.
pub fn states_keep_facts<S: Space>()
    ensures { StatesKeepFacts S S.Id }
{}
