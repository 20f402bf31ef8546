//! The groups that wait for their next attempt.

ghost use Rattle.std.specs.Prelude.{◌≡◌, ◌<◌, ◌++◌, ◌∷◌, [], List, IfOk, OnErr, OnOk, get_or, length, map, ℕ};
ghost use Rattle.std.specs.List.{remove};
ghost use Rattle.vx_group.specs.Group.{key_of};
ghost use Rattle.vx_sched.specs.Keys.{AreFirstKeys};
ghost use Rattle.vx_sched.specs.Picks.{IsFirstKey};
ghost use Rattle.vx_value.specs.declared.key.KeyPart.{KeyPart};

use crate::picker::Picker;
use std::alloc::{AllocError, Global};
use std::marker::Model;
use vx_group::Group;
use vx_space::Space;
use vx_value::Key;

/// Groups in order. The key of a group is made where it is first asked for, and stays beside the group, so that a round makes the keys
/// of few groups. Contracts see the groups alone.
#[derive(Drop)]
pub struct Waiting<S: Space> {
    groups: Vec<Group<S>>,
    /// The keys of the first groups.
    keys: Vec<Key>,
}

impl<S: Space> Model for Waiting<S> {
    ghost use Rattle.std.specs.Prelude.{List};
    ghost use Rattle.vx_group.specs.Group.{GroupView};
    ghost use Rattle.vx_sched.specs.Keys.{AreFirstKeys};

    ghost Value = { List (GroupView S S.Id) };

    ghost view = { λ w. w.groups.items };

    ghost invariant = { λ w. AreFirstKeys w.keys.items w.groups.items };
}

/// Removes the key of a place, if it is there.
fn remove_key(keys: &mut Vec<Key>, place: usize)
    ensures { keys.new.items ≡ remove keys.old.items place }
{
    if place < keys.len() {
        keys.remove(place);
    }
}

/// Makes the keys that aren't there yet. Want of memory leaves some of them made.
fn make_keys<S: Space>(groups: &[Group<S>], keys: &mut Vec<Key>) -> Result<(), AllocError>
    requires { AreFirstKeys keys.old.items groups.now }
    ensures first { AreFirstKeys keys.new.items groups.now }
    ensures all { OnOk result (keys.new.items ≡ map key_of groups.now) }
{
    for place in keys.len()..groups.len() {
        let key = groups[place].key()?;
        keys.push(key)?;
    }
    Ok(())
}

/// The place that a picker chooses by the keys of groups. One that is alone is chosen without its key. Want of memory leaves the picker as it
/// was.
fn place_for<S: Space, K: Picker>(
    groups: &[Group<S>],
    keys: &mut Vec<Key>,
    picker: &mut K,
) -> Result<usize, AllocError>
    requires some { 0 < length groups.now }
    requires keys { AreFirstKeys keys.old.items groups.now }
    ensures keys { AreFirstKeys keys.new.items groups.now }
    ensures in_range { IfOk result (λ place. place < length groups.now) }
    ensures first { ((list : List (List KeyPart)) (place : ℕ) → K.picks list place → IsFirstKey list place) → IfOk result (IsFirstKey (map key_of groups.now)) }
    ensures err { OnErr result (picker.new ≡ picker.old) }
{
    if groups.len() == 1 {
        return Ok(0);
    }
    make_keys(groups, keys)?;
    Ok(picker.pick(keys.as_slice()))
}

impl<S: Space> Waiting<S> {
    /// No groups.
    pub fn new(alloc: Global) -> Waiting<S>
        ensures { result ≡ [] }
    {
        Waiting {
            groups: Vec::new(alloc),
            keys: Vec::new(alloc),
        }
    }

    /// The groups in order.
    pub fn as_slice(&self) -> &[Group<S>]
        ensures { result.now ≡ self.now }
    {
        self.groups.as_slice()
    }

    /// Appends a group. After want of memory the groups are as they were.
    pub fn push(&mut self, group: Group<S>) -> Result<(), AllocError>
        ensures ok { OnOk result (self.new ≡ self.old ++ group ∷ []) }
        ensures err { OnErr result (self.new ≡ self.old) }
    {
        self.groups.push(group)?;
        Ok(())
    }

    /// Takes the group of a place out, by a move. Those behind it move up by one place.
    pub fn take(&mut self, place: usize) -> Group<S>
        requires { place < length self.old }
        ensures value { result ≡ get_or self.old place result }
        ensures rest { self.new ≡ remove self.old place }
    {
        remove_key(&mut self.keys, place);
        self.groups.remove(place)
    }

    /// The place that a picker chooses by the keys. Want of memory leaves the picker as it was.
    pub fn pick<K: Picker>(&mut self, picker: &mut K) -> Result<usize, AllocError>
        requires { 0 < length self.old }
        ensures same { self.new ≡ self.old }
        ensures in_range { IfOk result (λ place. place < length self.old) }
        ensures first { ((keys : List (List KeyPart)) (place : ℕ) → K.picks keys place → IsFirstKey keys place) → IfOk result (IsFirstKey (map key_of self.old)) }
        ensures err { OnErr result (picker.new ≡ picker.old) }
    {
        place_for(self.groups.as_slice(), &mut self.keys, picker)
    }
}
