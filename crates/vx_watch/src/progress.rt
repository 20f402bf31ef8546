//! How far runs have come.

ghost use Rattle.std.specs.Prelude.{◌≡◌, IfOk, length, map};
ghost use Rattle.std.specs.BTreeMap.{get};
ghost use Rattle.vx_count.specs.Memo.{AreNumbers};
ghost use Rattle.vx_space.specs.Sets.{AreKnown};
ghost use Rattle.vx_standing.specs.State.{shared_ids};
ghost use Rattle.vx_watch.specs.Progress.{max_from, most_from, progress_of, settled};

use std::alloc::{AllocError, Global};
use std::collections::BTreeMap;
use vx_cond::Leaf;
use vx_count::count_of;
use vx_findings::Shared;
use vx_group::Group;
use vx_space::Space;
use vx_standing::State;
use vx_value::End;

/// How far the runs of all configurations have come (own).
#[derive(Clone, Copy, Debug)]
pub struct Progress {
    /// How many rounds were made.
    pub rounds: u128,
    /// How many groups go on.
    pub groups: u64,
    /// How many configurations have ended, at most 2^64: each has one end.
    pub ended: u128,
    /// How many configurations there are.
    pub of: u128,
    /// The greatest number of attempts of a configuration.
    pub attempts: u64,
    /// How many sets the space knows: the nodes of its diagrams.
    pub sets: u64,
}

/// The greatest value of leaves and of a number.
fn most_of_leaves<S: Space>(leaves: &[Leaf<u64, S>], from: u64) -> u64
    ensures { result ≡ max_from from (map (λ leaf. leaf.value) leaves.now) }
{
    let mut most = from;
    for leaf in leaves {
        most = most.max(leaf.value);
    }
    most
}

/// The greatest number of attempts in groups.
fn most_of_groups<S: Space>(groups: &[Group<S>]) -> u64
    ensures { result ≡ most_from 0 groups.now }
{
    let mut most = 0;
    for group in groups {
        most = most_of_leaves(group.attempts().leaves(), most);
    }
    most
}

/// The greatest number of attempts of runs that have ended, and a number.
fn most_spent<S: Space>(spent: &[Shared<u64, S>], from: u64) -> u64
    ensures { result ≡ max_from from (map (λ shared. shared.value) spent.now) }
{
    let mut most = from;
    for shared in spent {
        most = most.max(shared.value);
    }
    most
}

/// At how many settings each end stands, together.
fn settled<S: Space>(alloc: Global, space: &S, ends: &[Shared<End, S>]) -> Result<u128, AllocError>
    requires { AreKnown (S.sets space.now) (shared_ids ends.now) }
    ensures { IfOk result (λ n. n ≡ settled (S.sets space.now) ends.now) }
{
    let mut numbers = BTreeMap::new(alloc);
    let mut sum = 0;
    for end in ends {
        sum += count_of(space, &mut numbers, end.condition)?;
    }
    Ok(sum)
}

/// How far the runs of a state have come, of so many configurations.
pub fn progress_of<S: Space>(
    alloc: Global,
    space: &S,
    state: &State<S>,
    of: u128,
) -> Result<Progress, AllocError>
    requires { AreKnown (S.sets space.now) (shared_ids state.now.ends) }
    ensures { IfOk result (λ progress. progress ≡ progress_of (S.sets space.now) of state.now) }
{
    let groups = state.groups();
    let running = most_of_groups(groups);
    Ok(Progress {
        rounds: state.rounds(),
        groups: groups.len() as u64,
        ended: settled(alloc, space, state.ends.as_slice())?,
        of,
        attempts: most_spent(state.spent.as_slice(), running),
        sets: space.count(),
    })
}
