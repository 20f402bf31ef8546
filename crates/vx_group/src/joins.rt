//! Restricting and joining the frames of the tree.

ghost use Rattle.std.specs.Prelude.{◌≡◌, map, IfOk};
ghost use Rattle.vx_space.specs.Sets.{IsKnown, Extends};
ghost use Rattle.vx_cond.specs.Cond.{AreDisjoint};
ghost use Rattle.vx_frame.specs.Frame.{shape_of};
ghost use Rattle.vx_group.specs.Callers.{IsCallerFrame, IsFrameInside, IsFrameJoined, AreCallers, AreJoined, Keeps, callers_of};

use crate::callers::Callers;
use vx_frame::Frame;
use vx_space::{Space, SpaceFault};

/// Where a group's callers begin: its path, and the number of its caller.
#[derive(Drop)]
pub(crate) struct Reach<S: Space> {
    pub path: S::Id,
    pub caller: Option<usize>,
}

/// A frame of the tree, restricted to a path that its scope holds.
pub(crate) fn frame_inside<S: Space>(
    frame: &Frame<S>,
    space: &mut S,
    path: S::Id,
) -> Result<Frame<S>, SpaceFault>
    requires frame { IsCallerFrame (S.sets space.old) path frame.now }
    requires known { IsKnown (S.sets space.old) path }
    ensures extends { Extends (S.sets space.old) (S.sets space.new) }
    ensures ok { IfOk result (IsFrameInside (S.sets space.old) (S.sets space.new) path frame.now) }
{
    let inner = frame.restrict(space, path)?;
    Ok(inner)
}

/// Two frames of the tree of one shape, each restricted to its path and then joined.
fn join_inside<S: Space>(
    first: &Frame<S>,
    second: &Frame<S>,
    space: &mut S,
    a: S::Id,
    b: S::Id,
) -> Result<Frame<S>, SpaceFault>
    requires first { IsCallerFrame (S.sets space.old) a first.now }
    requires second { IsCallerFrame (S.sets space.old) b second.now }
    requires shapes { shape_of first.now ≡ shape_of second.now }
    requires known_first { IsKnown (S.sets space.old) a }
    requires known_second { IsKnown (S.sets space.old) b }
    requires disjoint { AreDisjoint (S.sets space.old) a b }
    ensures extends { Extends (S.sets space.old) (S.sets space.new) }
    ensures ok { IfOk result (IsFrameJoined (S.sets space.old) (S.sets space.new) a b first.now second.now) }
{
    let left = frame_inside(first, space, a)?;
    let right = frame_inside(second, space, b)?;
    let made = left.join(space, &right)?;
    Ok(made)
}

/// The callers of two groups as one: a caller that both have stays, and of two a new node holds the two frames, each
/// restricted to its group's path and then joined; their own callers are treated in the same way.
pub(crate) fn join_callers<S: Space>(
    callers: &mut Callers<S>,
    space: &mut S,
    first: &Reach<S>,
    second: &Reach<S>,
    depth: usize,
) -> Result<Option<usize>, SpaceFault>
    requires first { AreCallers (S.sets space.old) callers.old first.now.path depth first.now.caller }
    requires second { AreCallers (S.sets space.old) callers.old second.now.path depth second.now.caller }
    requires shapes { map shape_of (callers_of callers.old depth first.now.caller) ≡ map shape_of (callers_of callers.old depth second.now.caller) }
    requires known_first { IsKnown (S.sets space.old) first.now.path }
    requires known_second { IsKnown (S.sets space.old) second.now.path }
    requires disjoint { AreDisjoint (S.sets space.old) first.now.path second.now.path }
    ensures extends { Extends (S.sets space.old) (S.sets space.new) }
    ensures keeps { Keeps callers.old callers.new }
    ensures ok { IfOk result (AreJoined (S.sets space.old) (S.sets space.new) callers.old callers.new depth first.now.path first.now.caller second.now.path second.now.caller) }
    ensures shared { first.now.caller ≡ second.now.caller → (callers.new ≡ callers.old) × IfOk result (λ r. r ≡ first.now.caller) }
{
    let (Some(m), Some(n)) = (first.caller, second.caller) else {
        return Ok(first.caller);
    };
    if m == n {
        return Ok(first.caller);
    }
    let (Some(x), Some(y)) = (callers.get(m), callers.get(n)) else {
        unreachable!()
    };
    let frame = join_inside(&x.frame, &y.frame, space, first.path, second.path)?;
    let below_first = Reach {
        path: first.path,
        caller: x.caller,
    };
    let below_second = Reach {
        path: second.path,
        caller: y.caller,
    };
    let caller = join_callers(callers, space, &below_first, &below_second, depth - 1)?;
    Ok(Some(callers.add(frame, caller)?))
}
