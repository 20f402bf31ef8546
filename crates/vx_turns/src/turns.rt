//! The steps of a round around its attempt: the group that is taken out, its attempt that is counted, and what changed that is
//! put back.

ghost use Rattle.std.specs.Prelude.{◌≡◌, ◌<◌, ◌+◌, ◌^◌, IfOk, List, OnErr, OnOk, length, suc, true, Bool};
ghost use Rattle.vx_space.specs.Sets.{Extends};
ghost use Rattle.vx_group.specs.Group.{IsGroup, attempts_at, path_of};
ghost use Rattle.vx_turns.specs.Turns.{IsBegun, IsSpent, put_back};

use std::alloc::{AllocError, Global};
use std::mem;
use vx_cond::Cond;
use vx_group::{Callers, Group};
use vx_placing::Round;
use vx_sched::Waiting;
use vx_space::{Space, SpaceFault};
use vx_standing::State;

/// Takes the group of a place out, by a move, and all else that changes in a round.
pub fn begin_round<S: Space>(
    alloc: Global,
    state: &mut State<S>,
    which: usize,
) -> (Round<S>, Group<S>)
    requires { which < length state.old.groups }
    ensures { IsBegun state.old state.new which result.0 result.1 }
{
    let group = state.groups.take(which);
    let round = Round {
        callers: mem::replace(&mut state.callers, Callers::new(alloc)),
        groups: mem::replace(&mut state.groups, Waiting::new(alloc)),
        ends: mem::replace(&mut state.ends, Vec::new(alloc)),
        spent: mem::replace(&mut state.spent, Vec::new(alloc)),
        texts: Vec::new(alloc),
    };
    (round, group)
}

/// Counts the attempt for a group. Its numbers of attempts stand beside it too, since the group is given away.
pub fn spend<S: Space>(
    space: &mut S,
    group: Group<S>,
) -> Result<(Group<S>, Cond<u64, S>), SpaceFault>
    requires group { IsGroup (S.sets space.old) group }
    requires below { (c : List Bool) → (S.sets space.old).test (path_of group) c ≡ true → suc (attempts_at (S.sets space.old) group c) < 2 ^ 64 }
    ensures extends { Extends (S.sets space.old) (S.sets space.new) }
    ensures spent { IfOk result (λ r. IsSpent (S.sets space.old) (S.sets space.new) group r.0 r.1) }
{
    let mut spent = group;
    spent.spend(space)?;
    let path = spent.path();
    let attempts = spent.attempts().restrict(space, path)?;
    Ok((spent, attempts))
}

/// Puts what changed in a round back into its state. After want of memory the state is as it was before.
pub fn end_round<S: Space>(state: &mut State<S>, round: Round<S>) -> Result<(), AllocError>
    requires { state.old.rounds + 1 < 2 ^ 128 }
    ensures ok { OnOk result (state.new ≡ put_back state.old round) }
    ensures err { OnErr result (state.new ≡ state.old) }
{
    let Round {
        callers,
        groups,
        ends,
        spent,
        mut texts,
    } = round;
    state.found.append(&mut texts)?;
    state.callers = callers;
    state.groups = groups;
    state.ends = ends;
    state.spent = spent;
    state.rounds += 1;
    Ok(())
}
