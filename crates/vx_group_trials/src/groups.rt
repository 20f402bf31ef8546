//! Groups of one frame and of two, which the trials begin with.

ghost use Rattle.std.specs.Prelude.{◌≡◌, ◌∷◌, List, Bool, IfOk};
ghost use Rattle.vx_space.specs.Sets.{IsKnown};
ghost use Rattle.vx_frame.specs.Frame.{shape_of};
ghost use Rattle.vx_group.specs.Callers.{Keeps};
ghost use Rattle.vx_group.specs.Group.{IsGroupIn, path_of, shapes_of, attempts_at};
ghost use Rattle.vx_group_trials.specs.Halves.{first_shape, IsSingle, AreHalves};

use crate::options::first_option;
use std::alloc::Global;
use vx_cond::Cond;
use vx_frame::Frame;
use vx_group::{Callers, Group};
use vx_space::{Space, SpaceFault};
use vx_value::{Kind, MethodId};

/// A path at the start of a method.
pub(crate) fn group_of<S: Space>(
    alloc: Global,
    space: &S,
    method: MethodId,
    path: S::Id,
) -> Result<Group<S>, SpaceFault>
    requires { IsKnown (S.sets space.now) path }
    ensures single { IfOk result (IsSingle (S.sets space.now)) }
    ensures path { IfOk result (λ r. path_of r ≡ path) }
    ensures shape { IfOk result (λ r. shape_of r.top ≡ first_shape method) }
    ensures fresh { IfOk result (λ r. (c : List Bool) → attempts_at (S.sets space.now) r c ≡ 0) }
{
    let attempts = Cond::one(alloc, space, 0, path)?;
    let frame = Frame::new(alloc, space, Kind::Call, method, 1, path)?;
    let group = Group::new(alloc, attempts, frame);
    Ok(group)
}

/// A group of one frame, with the frame of a method that it calls on it.
pub(crate) fn called<S: Space>(
    alloc: Global,
    space: &S,
    callers: &mut Callers<S>,
    group: Group<S>,
    method: MethodId,
) -> Result<Group<S>, SpaceFault>
    requires group { IsGroupIn (S.sets space.now) callers.old group }
    requires single { IsSingle (S.sets space.now) group }
    ensures keeps { Keeps callers.old callers.new }
    ensures group { IfOk result (IsGroupIn (S.sets space.now) callers.new) }
    ensures path { IfOk result (λ r. path_of r ≡ path_of group) }
    ensures shapes { IfOk result (λ r. shapes_of callers.new r ≡ first_shape method ∷ shapes_of callers.old group) }
{
    let mut group = group;
    let frame = Frame::new(alloc, space, Kind::Call, method, 1, group.path())?;
    group.push(callers, space, frame)?;
    Ok(group)
}

/// A path in method 1, which was called by method 0.
pub(crate) fn called_group<S: Space>(
    alloc: Global,
    space: &S,
    callers: &mut Callers<S>,
    path: S::Id,
) -> Result<Group<S>, SpaceFault>
    requires { IsKnown (S.sets space.now) path }
    ensures group { IfOk result (IsGroupIn (S.sets space.now) callers.new) }
    ensures path { IfOk result (λ r. path_of r ≡ path) }
{
    let group = group_of(alloc, space, MethodId(0), path)?;
    let group = called(alloc, space, callers, group, MethodId(1))?;
    Ok(group)
}

/// All configurations at the start of method 0, parted by the first option.
pub(crate) fn halves<S: Space>(
    alloc: Global,
    space: &mut S,
) -> Result<(Group<S>, Group<S>), SpaceFault>
    ensures { IfOk result (λ r. AreHalves (S.sets space.new) r.0 r.1) }
{
    let on = first_option(space)?;
    let whole = group_of(alloc, space, MethodId(0), space.always())?;
    let parts = whole.split(space, on)?;
    Ok(parts)
}
