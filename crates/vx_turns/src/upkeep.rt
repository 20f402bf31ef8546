//! The upkeep between rounds. A round only adds sets to its space and callers to its tree; here the space forgets the sets that the
//! state doesn't name, and the tree drops the callers that no group has. Either walks over all that there is, so it waits until so
//! much is new that it costs little beside what made that (own).

ghost use Rattle.std.specs.Prelude.{◌≡◌, IfOk, OnErr, OnOk, length, map, true};
ghost use Rattle.vx_space.specs.Sets.{AreKnown, IsCompacted};
ghost use Rattle.vx_space.specs.Under.{IsNumberUnder};
ghost use Rattle.vx_group.specs.Sweep.{StandIn};
ghost use Rattle.vx_link.specs.declared.program.Program.{Program};
ghost use Rattle.vx_standing.specs.State.{IsState, state_ids};
ghost use Rattle.vx_turns.specs.Tending.{IsSweptState, IsTended, is_much};

use std::alloc::{AllocError, Global};
use vx_space::{Space, SpaceFault};
use vx_standing::State;

/// What the last walks left, and the most that there was at any time.
#[derive(Clone, Copy, Debug)]
pub struct Upkeep {
    /// How many ids the state held at the last compaction.
    held: u64,
    /// The most sets that the space knew.
    most_sets: u64,
    /// How many callers the last sweep left.
    callers: u64,
    /// The most callers that there were.
    most_callers: u64,
}

/// Whether so much is new that a walk costs little: more than the last one left, and an eighth of the most that there was, since
/// it goes over the places of all.
fn is_much(fresh: u64, left: u64, most: u64) -> bool
    ensures { result ≡ is_much fresh left most }
{
    fresh > left && fresh >= most / 8
}

impl Upkeep {
    /// That of a state with which runs begin.
    pub fn new() -> Upkeep
        ensures { result ≡ record { held = 0; most_sets = 0; callers = 0; most_callers = 0 } }
    {
        Upkeep {
            held: 0,
            most_sets: 0,
            callers: 0,
            most_callers: 0,
        }
    }

    /// Takes down how much there is, if it is the most.
    fn note<S: Space>(&mut self, space: &S, state: &State<S>) {
        self.most_sets = self.most_sets.max(space.count());
        self.most_callers = self.most_callers.max(state.callers.len() as u64);
    }

    /// Whether the space is to forget sets. The ids that the state holds are walked over too.
    fn is_compaction_due<S: Space>(&self, space: &S) -> bool {
        let fresh = space.count().saturating_sub(space.base());
        is_much(fresh, space.base().max(self.held), self.most_sets)
    }

    /// Whether the tree is to drop callers.
    fn is_sweep_due<S: Space>(&self, state: &State<S>) -> bool {
        let fresh = (state.callers.len() as u64).saturating_sub(self.callers);
        is_much(fresh, self.callers, self.most_callers)
    }
}

/// Drops the callers that no group of a state has. Want of memory leaves the state as it was.
pub fn sweep<S: Space>(alloc: Global, state: &mut State<S>) -> Result<(), AllocError>
    requires { StandIn state.old.tree state.old.groups }
    ensures ok { OnOk result (IsSweptState state.old state.new) }
    ensures err { OnErr result (state.new ≡ state.old) }
{
    state.callers.sweep(alloc, state.groups.as_slice())
}

/// Compacts the space on the ids of a state, and says how many these are. After want of memory the space is as it was.
pub fn compact<S: Space>(alloc: Global, space: &mut S, state: &State<S>) -> Result<u64, AllocError>
    requires { AreKnown (S.sets space.old) (state_ids state.now) }
    ensures number { IfOk result (λ n. n ≡ length (state_ids state.now)) }
    ensures compacted { OnOk result (IsCompacted (S.sets space.old) (S.sets space.new) (state_ids state.now)) }
    ensures based { OnOk result ((S.sets space.new).counts ≡ true → IsNumberUnder (map (S.sets space.old).test (state_ids state.now)) (S.sets space.new).base) }
    ensures err { OnErr result (S.sets space.new ≡ S.sets space.old) }
{
    let mut ids = Vec::new(alloc);
    state.ids_out(&mut ids)?;
    space.compact(&ids)?;
    Ok(ids.len() as u64)
}

/// A sweep in the upkeep.
fn drop_callers<S: Space>(
    alloc: Global,
    state: &mut State<S>,
    upkeep: &mut Upkeep,
) -> Result<(), SpaceFault>
    requires { StandIn state.old.tree state.old.groups }
    ensures { OnOk result (IsSweptState state.old state.new) }
{
    sweep(alloc, state)?;
    upkeep.callers = state.callers.len() as u64;
    Ok(())
}

/// A compaction in the upkeep. A sweep comes first, since the ids of callers that no group has need not be known. After want of memory the
/// space is as it was.
fn forget_sets<S: Space>(
    alloc: Global,
    space: &mut S,
    state: &mut State<S>,
    upkeep: &mut Upkeep,
) -> Result<(), SpaceFault>
    requires { (p : Program) × IsState p (S.sets space.old) state.old.heap.allowed state.old }
    ensures ok { OnOk result (IsTended (S.sets space.old) (S.sets space.new) state.old state.new) }
    ensures err { OnErr result (S.sets space.new ≡ S.sets space.old) }
{
    drop_callers(alloc, state, upkeep)?;
    upkeep.held = compact(alloc, space, state)?;
    Ok(())
}

/// Tends a state between two rounds: drops callers and forgets sets where it is time to. Afterwards only the ids of the state are sure
/// to be known. After want of memory the space is as it was.
pub fn tend<S: Space>(
    alloc: Global,
    space: &mut S,
    state: &mut State<S>,
    upkeep: &mut Upkeep,
) -> Result<(), SpaceFault>
    requires { (p : Program) × IsState p (S.sets space.old) state.old.heap.allowed state.old }
    ensures ok { OnOk result (IsTended (S.sets space.old) (S.sets space.new) state.old state.new) }
    ensures err { OnErr result (S.sets space.new ≡ S.sets space.old) }
{
    upkeep.note(space, state);
    if upkeep.is_compaction_due(space) {
        return forget_sets(alloc, space, state, upkeep);
    }
    if upkeep.is_sweep_due(state) {
        return drop_callers(alloc, state, upkeep);
    }
    Ok(())
}
