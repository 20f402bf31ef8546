//! Frames that are taken off a group.

ghost use Rattle.std.specs.Prelude.{◌≡◌, ◌<◌, IfOk};
ghost use Rattle.vx_space.specs.Sets.{Extends};
ghost use Rattle.vx_group.specs.Group.{IsGroupIn, depth_of};
ghost use Rattle.vx_frames.specs.Uncovering.{IsUncovered};

use vx_frame::Frame;
use vx_group::{Callers, Group};
use vx_space::{Space, SpaceFault};

/// Takes the frame on top off a group that has more than one, after a return or where an exception passes the frame (JVMS 2.6.4,
/// 2.6.5). The caller's frame is on top then, at the call where it stands, and inside the path alone. No group is divided by it, since
/// methods, positions and kinds of all frames are one in a group. The callers stay.
pub fn uncovered<S: Space>(
    space: &mut S,
    callers: &mut Callers<S>,
    group: Group<S>,
) -> Result<(Group<S>, Frame<S>), SpaceFault>
    requires group { IsGroupIn (S.sets space.old) callers.old group }
    requires called { 1 < depth_of group }
    ensures extends { Extends (S.sets space.old) (S.sets space.new) }
    ensures callers { callers.new ≡ callers.old }
    ensures uncovered { IfOk result (λ r. IsUncovered (S.sets space.old) (S.sets space.new) callers.new group r.1 r.0) }
{
    let mut group = group;
    let Some(frame) = group.pop(callers, space)? else {
        unreachable!()
    };
    Ok((group, frame))
}
