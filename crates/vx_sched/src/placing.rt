//! Placing a group among those that wait.

ghost use Rattle.std.specs.Prelude.{◌≡◌, map, IfOk, IfSome, IsNone, OnOk};
ghost use Rattle.vx_space.specs.Sets.{Extends};
ghost use Rattle.vx_group.specs.Callers.{Keeps};
ghost use Rattle.vx_group.specs.Group.{path_of, key_of, IsGroupIn};
ghost use Rattle.vx_sched.specs.Groups.{HasKeyAt, AreApart, IsFresh, AreGroups, FitsAmong, IsPlaced};

use crate::waiting::Waiting;
use std::alloc::{AllocError, Global};
use vx_group::{Callers, Group};
use vx_space::{Space, SpaceFault};
use vx_value::Key;

/// The keys of groups, in order.
pub fn keys_of<S: Space>(alloc: Global, groups: &[Group<S>]) -> Result<Vec<Key>, AllocError>
    ensures { IfOk result (λ keys. keys.items ≡ map key_of groups.now) }
{
    let mut keys = Vec::new(alloc);
    for group in groups {
        keys.push(group.key()?)?;
    }
    Ok(keys)
}

/// The place of the group that has the key of another, if there is one.
fn place_of<S: Space>(groups: &[Group<S>], group: &Group<S>) -> Option<usize>
    ensures found { IfSome result (λ place. HasKeyAt groups.now place (key_of group.now)) }
    ensures fresh { IsNone result → IsFresh (key_of group.now) groups.now }
{
    for place in 0..groups.len() {
        if groups[place].has_key_of(group) {
            return Some(place);
        }
    }
    None
}

/// Joins a group with the one at a place, which has its key.
fn join_at<S: Space>(
    callers: &mut Callers<S>,
    space: &mut S,
    groups: &mut Waiting<S>,
    place: usize,
    group: Group<S>,
) -> Result<(), SpaceFault>
    requires groups { AreGroups (S.sets space.old) callers.old groups.old }
    requires group { IsGroupIn (S.sets space.old) callers.old group }
    requires apart { AreApart (S.sets space.old) (path_of group) groups.old }
    requires fits { FitsAmong callers.old group groups.old }
    requires place { HasKeyAt groups.old place (key_of group) }
    ensures extends { Extends (S.sets space.old) (S.sets space.new) }
    ensures keeps { Keeps callers.old callers.new }
    ensures placed { OnOk result (IsPlaced (S.sets space.old) (S.sets space.new) callers.old callers.new groups.old group groups.new) }
{
    let other = groups.take(place);
    let joined = other.join(callers, space, group)?;
    groups.push(joined)?;
    Ok(())
}

/// Places a group among groups of other configurations: one whose path is never is dropped, one whose key is there is joined
/// with the group of that key, and any other is appended. After want of memory the groups are given up.
pub fn place_group<S: Space>(
    callers: &mut Callers<S>,
    space: &mut S,
    groups: &mut Waiting<S>,
    group: Group<S>,
) -> Result<(), SpaceFault>
    requires groups { AreGroups (S.sets space.old) callers.old groups.old }
    requires group { IsGroupIn (S.sets space.old) callers.old group }
    requires apart { AreApart (S.sets space.old) (path_of group) groups.old }
    requires fits { FitsAmong callers.old group groups.old }
    ensures extends { Extends (S.sets space.old) (S.sets space.new) }
    ensures keeps { Keeps callers.old callers.new }
    ensures placed { OnOk result (IsPlaced (S.sets space.old) (S.sets space.new) callers.old callers.new groups.old group groups.new) }
{
    if space.is_never(group.path()) {
        return Ok(());
    }
    match place_of(groups.as_slice(), &group) {
        Some(place) => join_at(callers, space, groups, place, group),
        None => {
            groups.push(group)?;
            Ok(())
        }
    }
}
