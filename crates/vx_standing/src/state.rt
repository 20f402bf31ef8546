//! The state of all runs.

ghost use Rattle.std.specs.Prelude.{◌≡◌, ◌<◌, ◌++◌, IfOk, List, OnErr, OnOk, length, map, ℕ};
ghost use Rattle.std.specs.List.{flat_map};
ghost use Rattle.vx_group.specs.Callers.{tree_ids};
ghost use Rattle.vx_group.specs.Group.{group_ids, key_of};
ghost use Rattle.vx_heap.specs.Heap.{heap_ids};
ghost use Rattle.vx_sched.specs.Picks.{IsFirstKey};
ghost use Rattle.vx_value.specs.declared.key.KeyPart.{KeyPart};
ghost use Rattle.vx_standing.specs.State.{shared_ids, state_ids};

use std::alloc::AllocError;
use std::marker::Model;
use vx_findings::{Piece, Shared};
use vx_group::{Callers, Group};
use vx_heap::Heap;
use vx_list::{or_cut_back, put_one};
use vx_sched::{Picker, Waiting};
use vx_space::Space;
use vx_value::End;

/// The state of all runs side by side. It doesn't hold its space. That it is a state of runs is said by `IsState`: the start makes
/// such a state, and each round keeps it.
#[derive(Drop)]
pub struct State<S: Space> {
    /// What all runs share.
    pub heap: Heap<S>,
    /// The frames below those on top.
    pub callers: Callers<S>,
    /// The groups that go on.
    pub groups: Waiting<S>,
    /// How many attempts a run makes at most.
    pub limit: u64,
    /// How many rounds were made.
    pub rounds: u128,
    /// The texts in the order in which they were written.
    pub found: Vec<Shared<Piece, S>>,
    /// The ends, ascending.
    pub ends: Vec<Shared<End, S>>,
    /// The numbers of attempts of the runs that have ended, ascending.
    pub spent: Vec<Shared<u64, S>>,
}

impl<S: Space> Model for State<S> {
    ghost use Rattle.vx_standing.specs.State.{StateView};

    ghost Value = { StateView S S.Id };

    ghost view = { λ s. record { heap = s.heap; tree = s.callers; groups = s.groups; limit = s.limit; rounds = s.rounds; found = s.found.items; ends = s.ends.items; spent = s.spent.items } };
}

impl<S: Space> State<S> {
    /// The groups that go on.
    pub fn groups(&self) -> &[Group<S>]
        ensures { result.now ≡ self.now.groups }
    {
        self.groups.as_slice()
    }

    /// The place that a picker chooses of the groups. Want of memory leaves the picker as it was.
    pub fn next_place<K: Picker>(&mut self, picker: &mut K) -> Result<usize, AllocError>
        requires { 0 < length self.old.groups }
        ensures same { self.new ≡ self.old }
        ensures in_range { IfOk result (λ place. place < length self.old.groups) }
        ensures first { ((keys : List (List KeyPart)) (place : ℕ) → K.picks keys place → IsFirstKey keys place) → IfOk result (IsFirstKey (map key_of self.old.groups)) }
        ensures err { OnErr result (picker.new ≡ picker.old) }
    {
        self.groups.pick(picker)
    }

    /// How many rounds were made.
    pub fn rounds(&self) -> u128
        ensures { result ≡ self.now.rounds }
    {
        self.rounds
    }

    /// What was found, by a move: the texts in the order in which they were written, the ends, and the numbers of attempts.
    pub fn into_found(
        self,
    ) -> (
        Vec<Shared<Piece, S>>,
        Vec<Shared<End, S>>,
        Vec<Shared<u64, S>>,
    )
        ensures found { result.0.items ≡ self.found }
        ensures ends { result.1.items ≡ self.ends }
        ensures spent { result.2.items ≡ self.spent }
    {
        (self.found, self.ends, self.spent)
    }

    /// Appends just the ids that the state holds. Want of memory leaves the list as it was.
    #[tactic(auto, using(std::proofs::lemmas::List::append_assoc, std::proofs::lemmas::List::take_at))]
    pub fn ids_out(&self, ids: &mut Vec<S::Id>) -> Result<(), AllocError>
        ensures ok { OnOk result (ids.new.items ≡ ids.old.items ++ state_ids self.now) }
        ensures err { OnErr result (ids.new.items ≡ ids.old.items) }
    {
        let held = ids.len();
        self.run_ids_out(ids)?;
        or_cut_back(self.found_ids_out(ids), ids, held)
    }

    /// Appends the ids of heap, groups and callers. Want of memory leaves the list as it was.
    #[tactic(auto, using(std::proofs::lemmas::List::append_assoc, std::proofs::lemmas::List::take_at))]
    fn run_ids_out(&self, ids: &mut Vec<S::Id>) -> Result<(), AllocError>
        ensures ok { OnOk result (ids.new.items ≡ ids.old.items ++ (heap_ids self.now.heap ++ (flat_map group_ids self.now.groups ++ tree_ids self.now.tree))) }
        ensures err { OnErr result (ids.new.items ≡ ids.old.items) }
    {
        let held = ids.len();
        self.heap.ids_out(ids)?;
        or_cut_back(groups_out(self.groups.as_slice(), ids), ids, held)?;
        or_cut_back(self.callers.ids_out(ids), ids, held)
    }

    /// Appends the ids of what was found. Want of memory leaves the list as it was.
    #[tactic(auto, using(std::proofs::lemmas::List::append_assoc, std::proofs::lemmas::List::take_at))]
    fn found_ids_out(&self, ids: &mut Vec<S::Id>) -> Result<(), AllocError>
        ensures ok { OnOk result (ids.new.items ≡ ids.old.items ++ (shared_ids self.now.found ++ (shared_ids self.now.ends ++ shared_ids self.now.spent))) }
        ensures err { OnErr result (ids.new.items ≡ ids.old.items) }
    {
        let held = ids.len();
        sets_out(self.found.as_slice(), ids)?;
        or_cut_back(sets_out(self.ends.as_slice(), ids), ids, held)?;
        or_cut_back(sets_out(self.spent.as_slice(), ids), ids, held)
    }
}

/// Appends the ids that groups hold by themselves. Want of memory leaves the list as it was.
#[tactic(auto, using(std::proofs::lemmas::List::append_assoc, std::proofs::lemmas::List::take_at))]
fn groups_out<S: Space>(groups: &[Group<S>], ids: &mut Vec<S::Id>) -> Result<(), AllocError>
    ensures ok { OnOk result (ids.new.items ≡ ids.old.items ++ flat_map group_ids groups.now) }
    ensures err { OnErr result (ids.new.items ≡ ids.old.items) }
{
    let held = ids.len();
    for group in groups {
        or_cut_back(group.ids_out(ids), ids, held)?;
    }
    Ok(())
}

/// Appends the sets of values. Want of memory leaves the list as it was.
#[tactic(auto, using(std::proofs::lemmas::List::append_assoc, std::proofs::lemmas::List::take_at))]
pub fn sets_out<V, S: Space>(list: &[Shared<V, S>], ids: &mut Vec<S::Id>) -> Result<(), AllocError>
    ensures ok { OnOk result (ids.new.items ≡ ids.old.items ++ shared_ids list.now) }
    ensures err { OnErr result (ids.new.items ≡ ids.old.items) }
{
    let held = ids.len();
    for shared in list {
        or_cut_back(put_one(ids, shared.condition), ids, held)?;
    }
    Ok(())
}
