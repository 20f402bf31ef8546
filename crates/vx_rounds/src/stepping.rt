//! One round, by itself and with the upkeep between rounds.

ghost use Rattle.std.specs.Prelude.{◌≡◌, ◌<◌, OnOk, length, map, true};
ghost use Rattle.vx_space.specs.Sets.{Extends};
ghost use Rattle.vx_space.specs.Under.{IsNumberUnder};
ghost use Rattle.vx_standing.specs.Rounds.{IsRoundAt};
ghost use Rattle.vx_standing.specs.State.{IsState, IsTreeKnown, state_ids};
ghost use Rattle.vx_rounds.specs.Making.{MayMake};
ghost use Rattle.vx_turns.specs.Turns.{IsMade};

use std::alloc::Global;
use vx_attempt::attempt;
use vx_cond::Cond;
use vx_group::Group;
use vx_heap::Heap;
use vx_link::Program;
use vx_placing::{Round, Setting, place_all};
use vx_space::{Space, SpaceFault};
use vx_standing::State;
use vx_turns::{Upkeep, begin_round, compact, end_round, spend, sweep, tend};

/// The group makes its attempt, and what this comes to takes its place. After a refusal heap and round are given up.
fn make<S: Space>(
    alloc: Global,
    program: &Program,
    space: &mut S,
    heap: &mut Heap<S>,
    limit: u64,
    round: &mut Round<S>,
    group: Group<S>,
    attempts: &Cond<u64, S>,
) -> Result<(), SpaceFault>
    requires { MayMake program.now (S.sets space.old) heap.old limit round.old group attempts.now }
    ensures extends { Extends (S.sets space.old) (S.sets space.new) }
    ensures made { OnOk result (IsMade program.now (S.sets space.old) (S.sets space.new) heap.old heap.new limit group round.old round.new) }
{
    let outcomes = attempt(alloc, program, space, heap, &mut round.callers, group)?;
    let setting = Setting {
        program,
        heap,
        limit,
    };
    place_all(alloc, &setting, space, round, attempts, outcomes.items)?;
    Ok(())
}

/// Makes a round with the group of a place: one attempt of each of its runs. The space is only extended, and callers that no group
/// has any more stay, so it costs what its group costs. The only refusal is want of memory, after which the state is given up.
pub fn make_round<S: Space>(
    alloc: Global,
    program: &Program,
    space: &mut S,
    state: &mut State<S>,
    which: usize,
) -> Result<(), SpaceFault>
    requires state { IsState program.now (S.sets space.old) state.old.heap.allowed state.old }
    requires which { which < length state.old.groups }
    ensures extends { Extends (S.sets space.old) (S.sets space.new) }
    ensures ok { OnOk result (IsRoundAt program.now (S.sets space.old) (S.sets space.new) state.old state.new which) }
{
    let (begun, group) = begin_round(alloc, state, which);
    let mut round = begun;
    let (spent, attempts) = spend(space, group)?;
    let limit = state.limit;
    make(
        alloc,
        program,
        space,
        &mut state.heap,
        limit,
        &mut round,
        spent,
        &attempts,
    )?;
    end_round(state, round)?;
    Ok(())
}

/// A round that begins with a compaction and ends with a sweep, so afterwards only the ids of the state are sure to be known. It
/// costs what the whole state costs.
pub fn step_group<S: Space>(
    alloc: Global,
    program: &Program,
    space: &mut S,
    state: &mut State<S>,
    which: usize,
) -> Result<(), SpaceFault>
    requires state { IsState program.now (S.sets space.old) state.old.heap.allowed state.old }
    requires tree { IsTreeKnown (S.sets space.old) state.old }
    requires which { which < length state.old.groups }
    ensures ok { OnOk result (IsRoundAt program.now (S.sets space.old) (S.sets space.new) state.old state.new which) }
    ensures tree { OnOk result (IsTreeKnown (S.sets space.new) state.new) }
    ensures based { OnOk result ((S.sets space.new).counts ≡ true → IsNumberUnder (map (S.sets space.old).test (state_ids state.old)) (S.sets space.new).base) }
{
    compact(alloc, space, state)?;
    make_round(alloc, program, space, state, which)?;
    sweep(alloc, state)?;
    Ok(())
}

/// The next round of a run. A compaction or a sweep comes first where it is time to, so afterwards only the ids of the state are sure
/// to be known.
pub fn next_round<S: Space>(
    alloc: Global,
    program: &Program,
    space: &mut S,
    state: &mut State<S>,
    upkeep: &mut Upkeep,
    which: usize,
) -> Result<(), SpaceFault>
    requires state { IsState program.now (S.sets space.old) state.old.heap.allowed state.old }
    requires which { which < length state.old.groups }
    ensures { OnOk result (IsRoundAt program.now (S.sets space.old) (S.sets space.new) state.old state.new which) }
{
    tend(alloc, space, state, upkeep)?;
    make_round(alloc, program, space, state, which)?;
    Ok(())
}
