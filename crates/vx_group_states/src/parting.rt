//! Groups that are divided, unless all of their runs go one way.

ghost use Rattle.std.specs.Prelude.{IfOk, ◌&&◌};
ghost use Rattle.vx_space.specs.Sets.{IsKnown, Extends};
ghost use Rattle.vx_group.specs.Group.{IsGroup, IsPartOf, path_of};
ghost use Rattle.vx_group_states.specs.Parting.{IsLeft};

use vx_group::Group;
use vx_space::{Space, SpaceFault};

/// The part of a group in a condition, and what is left of it. Where the condition is the path, nothing is left, and the group stays as
/// it is.
pub fn part_in<S: Space>(
    space: &mut S,
    group: Group<S>,
    condition: S::Id,
) -> Result<(Group<S>, Option<Group<S>>), SpaceFault>
    requires group { IsGroup (S.sets space.old) group }
    requires known { IsKnown (S.sets space.old) condition }
    ensures extends { Extends (S.sets space.old) (S.sets space.new) }
    ensures inside { IfOk result (λ r. IsPartOf (S.sets space.old) (S.sets space.new) (λ c. (S.sets space.old).test (path_of group) c && (S.sets space.old).test condition c) group r.0) }
    ensures left { IfOk result (λ r. IsLeft (S.sets space.old) (S.sets space.new) group condition r.1) }
{
    if group.path() == condition {
        return Ok((group, None));
    }
    let (part, rest) = group.split(space, condition)?;
    Ok((part, Some(rest)))
}
