//! Rounds until no run goes on.

ghost use Rattle.std.specs.Prelude.{◌≡◌, ◌<◌, IfOk, OnOk, List, ℕ};
ghost use Rattle.vx_engine.specs.Rounds.{HasGoneOn};
ghost use Rattle.vx_lockstep.specs.Findings.{AreAllowed, AreFindings, report_by};
ghost use Rattle.vx_java.specs.Report.{lock_report};
ghost use Rattle.vx_java.specs.Step.{Config};
ghost use Rattle.vx_standing.specs.State.{IsState};
ghost use Rattle.vx_starting.specs.Starting.{MayStart};
ghost use Rattle.vx_sched.specs.Picks.{IsFirstKey};
ghost use Rattle.vx_value.specs.declared.key.KeyPart.{KeyPart};

use std::alloc::Global;
use vx_link::Program;
use vx_lockstep::Findings;
use vx_rounds::{Upkeep, next_round};
use vx_sched::Picker;
use vx_space::{Space, SpaceFault};
use vx_standing::State;
use vx_starting::start;

/// How many rounds `run_with` makes at a time; each is then the next of the same run (own).
const ROUNDS: u64 = 100_000;

/// Makes `most` rounds, or fewer where no run goes on then; the picker says which group makes each. Afterwards only the ids of the
/// state are sure to be known. The only refusal is want of memory, after which the state is given up.
pub fn make_rounds<S: Space, K: Picker>(
    alloc: Global,
    program: &Program,
    space: &mut S,
    state: &mut State<S>,
    upkeep: &mut Upkeep,
    picker: &mut K,
    most: u64,
) -> Result<(), SpaceFault>
    requires { IsState program.now (S.sets space.old) state.old.heap.allowed state.old }
    ensures { OnOk result (HasGoneOn program.now ((keys : List (List KeyPart)) (place : ℕ) → K.picks keys place → IsFirstKey keys place) most
        (S.sets space.old) (S.sets space.new) state.old state.new) }
{
    let mut made = 0;
    'rounds: while made < most && !state.groups().is_empty() {
        let which = state.next_place(picker)?;
        next_round(alloc, program, space, state, upkeep, which)?;
        made += 1;
    }
    Ok(())
}

/// What all runs have come to, where none goes on.
pub fn findings_of<S: Space>(state: State<S>) -> Findings<S>
    ensures { result ≡ record { rounds = state.rounds; found = state.found; ends = state.ends; spent = state.spent } }
{
    let rounds = state.rounds();
    let (found, ends, spent) = state.into_found();
    Findings {
        rounds,
        found,
        ends,
        spent,
    }
}

/// Runs a program in all of some configurations at once, each with at most `limit` attempts, where the picker says which
/// group makes the next attempt. Afterwards only the ids of the findings are sure to be known. The only refusal is want of
/// memory.
pub fn run_with<S: Space, K: Picker>(
    alloc: Global,
    program: &Program,
    space: &mut S,
    allowed: S::Id,
    limit: u64,
    picker: &mut K,
) -> Result<Findings<S>, SpaceFault>
    requires { MayStart program.now (S.sets space.old) allowed limit }

    // Whatever the picker, each allowed configuration has its own run.
    ensures findings { IfOk result (AreFindings program.now (S.sets space.new) ((S.sets space.old).test allowed) limit) }

    // Where the first key is picked, the findings are just the report of lockstep.
    ensures lockstep { ((keys : List (List KeyPart)) (place : ℕ) → K.picks keys place → IsFirstKey keys place) →
        IfOk result (λ f. (list : List Config) (version : ℕ) → AreAllowed (S.sets space.old).options ((S.sets space.old).test allowed) list →
        lock_report program.now list limit version ≡ report_by (S.sets space.new) list limit version f) }

    ensures options { IfOk result (λ _. (S.sets space.new).options ≡ (S.sets space.old).options) }
{
    let mut state = start(alloc, program, space, allowed, limit)?;
    let mut upkeep = Upkeep::new();
    'rounds: while !state.groups().is_empty() {
        make_rounds(
            alloc,
            program,
            space,
            &mut state,
            &mut upkeep,
            picker,
            ROUNDS,
        )?;
    }
    Ok(findings_of(state))
}
