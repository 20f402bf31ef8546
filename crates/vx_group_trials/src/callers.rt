//! The tree of callers: frames that are taken off it, sweeps and joins.

ghost use Rattle.vx_space.specs.Sets.{IsKnown};

use crate::groups::{called, called_group, halves};
use crate::options::first_option;
use std::alloc::{AllocError, Global};
use vx_group::{Callers, Group};
use vx_space::{Space, SpaceFault};
use vx_value::MethodId;

/// How many callers a sweep keeps that leaves a group with one caller.
fn count_kept<S: Space>(
    alloc: Global,
    space: &S,
    callers: &mut Callers<S>,
    path: S::Id,
) -> Result<usize, SpaceFault>
    requires { IsKnown (S.sets space.now) path }
{
    let group = called_group(alloc, space, callers, path)?;
    let mut groups = Vec::new(alloc);
    groups.push(group)?;
    callers.sweep(alloc, groups.as_slice())?;
    Ok(callers.len())
}

/// A sweep keeps a caller that a group reaches, and drops it once no group does.
fn swept<S: Space>(alloc: Global, space: &S, path: S::Id) -> Result<bool, SpaceFault>
    requires { IsKnown (S.sets space.now) path }
{
    let mut callers = Callers::new(alloc);
    let kept = count_kept(alloc, space, &mut callers, path)?;
    let groups = Vec::new(alloc);
    callers.sweep(alloc, groups.as_slice())?;
    Ok(kept == 1 && callers.len() == 0)
}

/// Whether the ids of a tree and of a group are four and six, each the path.
fn are_ids<S: Space>(
    alloc: Global,
    callers: &Callers<S>,
    group: &Group<S>,
    path: S::Id,
) -> Result<bool, AllocError> {
    let mut ids = Vec::new(alloc);
    callers.ids_out(&mut ids)?;
    let held = ids.len();
    group.ids_out(&mut ids)?;
    Ok(held == 4 && ids.len() == 10 && ids.iter().all(|id| *id == path))
}

/// The tree holds the ids of its one node, whose frame has one local and no operands; the group holds those of its attempts
/// and of its frame on top.
fn ids_held<S: Space>(alloc: Global, space: &S, path: S::Id) -> Result<bool, SpaceFault>
    requires { IsKnown (S.sets space.now) path }
{
    let mut callers = Callers::new(alloc);
    let group = called_group(alloc, space, &mut callers, path)?;
    Ok(are_ids(alloc, &callers, &group, path)?)
}

/// A frame that is taken off leaves its caller on top, and the tree as it was.
fn popped<S: Space>(
    alloc: Global,
    space: &mut S,
    callers: &mut Callers<S>,
    path: S::Id,
) -> Result<bool, SpaceFault>
    requires { IsKnown (S.sets space.old) path }
{
    let mut group = called_group(alloc, space, callers, path)?;
    let depth = group.depth();
    let frame = group.pop(callers, space)?;
    Ok(depth == 2 && frame.is_some() && group.depth() == 1 && callers.len() == 1)
}

/// Two groups that have one caller keep it when they are joined.
fn rejoined<S: Space>(
    alloc: Global,
    space: &mut S,
    callers: &mut Callers<S>,
) -> Result<bool, SpaceFault> {
    let on = first_option(space)?;
    let group = called_group(alloc, space, callers, space.always())?;
    let (first, second) = group.split(space, on)?;
    let is_part = first.path() == on;
    let whole = first.join(callers, space, second)?;
    let is_whole = whole.path() == space.always();
    Ok(is_part && is_whole && whole.depth() == 2 && callers.len() == 1)
}

/// Two groups with a caller each have one together when they are joined, in a node of its own.
fn callers_joined<S: Space>(
    alloc: Global,
    space: &mut S,
    callers: &mut Callers<S>,
) -> Result<bool, SpaceFault> {
    let (first, second) = halves(alloc, space)?;
    let first = called(alloc, space, callers, first, MethodId(1))?;
    let second = called(alloc, space, callers, second, MethodId(1))?;
    let whole = first.join(callers, space, second)?;
    let is_whole = whole.path() == space.always();
    Ok(is_whole && whole.depth() == 2 && callers.len() == 3)
}

/// What trials of the tree show over a space with an option.
pub(crate) fn are_right<S: Space>(alloc: Global, space: &mut S) -> Result<bool, SpaceFault> {
    let on = first_option(space)?;
    Ok(
        swept(alloc, space, on)?
            && ids_held(alloc, space, on)?
            && popped(alloc, space, &mut Callers::new(alloc), on)?
            && rejoined(alloc, space, &mut Callers::new(alloc))?
            && callers_joined(alloc, space, &mut Callers::new(alloc))?,
    )
}
