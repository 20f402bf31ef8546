//! The attempts of a group, its frame on top and its key.

ghost use Rattle.vx_space.specs.Sets.{IsKnown};

use crate::groups::{called_group, group_of};
use crate::options::first_option;
use std::alloc::{AllocError, Global};
use vx_group::Callers;
use vx_group_laws::{groups_are_kept, is_same_key};
use vx_space::{Space, SpaceFault};
use vx_value::{Key, KeyPart, Kind, MethodId};

/// One attempt is spent at each configuration of the path.
fn spent<S: Space>(alloc: Global, space: &mut S) -> Result<bool, SpaceFault> {
    let on = first_option(space)?;
    let mut group = group_of(alloc, space, MethodId(0), on)?;
    group.spend(space)?;
    let leaves = group.attempts().leaves();
    let is_one = leaves.len() == 1 && leaves[0].value == 1 && leaves[0].condition == on;
    Ok(is_one && group.path() == on)
}

/// The frame on top comes off and goes on again.
fn top_moved<S: Space>(alloc: Global, space: &S, path: S::Id) -> Result<bool, SpaceFault>
    requires { IsKnown (S.sets space.now) path }
{
    let group = group_of(alloc, space, MethodId(7), path)?;
    let (below, frame) = group.take_top();
    let is_top = frame.method == MethodId(7) && frame.scope() == path;
    let group = below.put_top(frame);
    Ok(is_top && group.path() == path && group.top_frame().locals.len() == 1)
}

/// The part of a frame that begins.
fn part_of_start(method: u32) -> KeyPart {
    KeyPart {
        method: MethodId(method),
        position: 0,
        depth: 0,
        kind: Kind::Call,
    }
}

/// The key of a method that was called.
fn called_key<S: Space>(alloc: Global, space: &S, path: S::Id) -> Result<Key, SpaceFault>
    requires { IsKnown (S.sets space.now) path }
{
    let mut callers = Callers::new(alloc);
    let group = called_group(alloc, space, &mut callers, path)?;
    Ok(group.key()?)
}

/// A key has the parts of the frames from bottom to top, and keys are one where their parts are.
fn keyed<S: Space>(alloc: Global, space: &S, path: S::Id) -> Result<bool, SpaceFault>
    requires { IsKnown (S.sets space.now) path }
{
    let key = called_key(alloc, space, path)?;
    Ok(
        is_of_parts(alloc, &key, &[part_of_start(0), part_of_start(1)])?
            && !is_of_parts(alloc, &key, &[part_of_start(1), part_of_start(0)])?,
    )
}

/// Whether a key is that of some parts.
fn is_of_parts(alloc: Global, key: &Key, parts: &[KeyPart]) -> Result<bool, AllocError> {
    let other = Key::of(alloc, parts)?;
    Ok(is_same_key(key, &other))
}

/// What trials of groups show over a space with an option.
pub(crate) fn are_right<S: Space>(alloc: Global, space: &mut S) -> Result<bool, SpaceFault> {
    let on = first_option(space)?;
    groups_are_kept::<S>();
    Ok(top_moved(alloc, space, on)? && keyed(alloc, space, on)? && spent(alloc, space)?)
}
