//! Runs that tell how far they have come.

ghost use Rattle.std.specs.Prelude.{◌≡◌, IfOk, List, ℕ};
ghost use Rattle.vx_lockstep.specs.Findings.{AreAllowed, AreFindings, report_by};
ghost use Rattle.vx_java.specs.Report.{lock_report};
ghost use Rattle.vx_java.specs.Step.{Config};
ghost use Rattle.vx_starting.specs.Starting.{MayStart};
ghost use Rattle.vx_sched.specs.Picks.{IsFirstKey};
ghost use Rattle.vx_value.specs.declared.key.KeyPart.{KeyPart};
ghost use Rattle.vx_watch.specs.Telling.{HasWatched};

use crate::telling::tell;
use std::alloc::Global;
use std::collections::BTreeMap;
use vx_count::count_of;
use vx_engine::{findings_of, make_rounds};
use vx_io::Sink;
use vx_link::Program;
use vx_lockstep::Findings;
use vx_rounds::Upkeep;
use vx_sched::Picker;
use vx_space::{Space, SpaceFault};
use vx_starting::start;

/// How many rounds stand between two lines (own).
const ROUNDS: u64 = 100_000;

/// Does what `vx_engine::run_with` does, and after each 100,000 rounds that are not the last ones writes a line that tells how far the
/// runs have come. Afterwards only the ids of the findings are sure to be known. The only refusal is want of memory.
pub fn run_watched<S: Space, K: Picker, E: Sink>(
    alloc: Global,
    program: &Program,
    space: &mut S,
    allowed: S::Id,
    limit: u64,
    picker: &mut K,
    err: &mut E,
) -> Result<Findings<S>, SpaceFault>
    requires { MayStart program.now (S.sets space.old) allowed limit }
    ensures findings { IfOk result (AreFindings program.now (S.sets space.new) ((S.sets space.old).test allowed) limit) }
    ensures lockstep { ((keys : List (List KeyPart)) (place : ℕ) → K.picks keys place → IsFirstKey keys place) →
        IfOk result (λ f. (list : List Config) (version : ℕ) → AreAllowed (S.sets space.old).options ((S.sets space.old).test allowed) list →
        lock_report program.now list limit version ≡ report_by (S.sets space.new) list limit version f) }
    ensures options { IfOk result (λ _. (S.sets space.new).options ≡ (S.sets space.old).options) }

    // Also where memory was wanting, lines that were written stay.
    ensures told { HasWatched (E.seen err.old) (E.seen err.new) }
{
    let of = count_of(space, &mut BTreeMap::new(alloc), allowed)?;
    let mut state = start(alloc, program, space, allowed, limit)?;
    let mut upkeep = Upkeep::new();
    'rounds: while !state.groups().is_empty() {
        make_rounds(
            alloc,
            program,
            space,
            &mut state,
            &mut upkeep,
            picker,
            ROUNDS,
        )?;
        if !state.groups().is_empty() {
            tell(alloc, space, &state, of, err)?;
        }
    }
    Ok(findings_of(state))
}
