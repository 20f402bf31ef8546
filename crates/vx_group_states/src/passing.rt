//! Groups that go past the instruction where a test holds.

ghost use Rattle.std.specs.Prelude.{IfOk};
ghost use Rattle.std.specs.Ordering.{bool_cmp};
ghost use Rattle.vx_space.specs.Sets.{Extends};
ghost use Rattle.vx_cond.specs.Leaves.{AreLeaves};
ghost use Rattle.vx_group.specs.Group.{IsGroup, path_of};
ghost use Rattle.vx_heap.specs.Heap.{HeapView};
ghost use Rattle.vx_java.specs.Machine.{go, illegal as illegal_of, when};
ghost use Rattle.vx_group_states.specs.Sites.{Cover, Gives, GivesAt, HasPast, here, settled_by};

use crate::endings::{illegal, pass};
use crate::parting::part_in;
use crate::site::Site;
use std::alloc::Global;
use vx_cond::Leaf;
use vx_group::Group;
use vx_outcome::Outcomes;
use vx_space::{Space, SpaceFault};

/// A part of a group that goes past the instruction, or that ends.
fn passed_part<S: Space>(
    alloc: Global,
    site: &Site,
    space: &S,
    part: Group<S>,
    holds: bool,
) -> Result<Outcomes<S>, SpaceFault>
    requires group { IsGroup (S.sets space.now) part }
    requires past { HasPast site.now part }
    ensures { IfOk result (λ r. Gives site.now.program.now (λ s. when holds (go (here site.now s) s.top.operands) (illegal_of (here site.now s))) (S.sets space.now) (S.sets space.now) part r.items.items) }
{
    if !holds {
        return illegal(alloc, site.program, &part);
    }
    let outcomes = pass(alloc, site, space, part)?;
    Ok(outcomes)
}

/// Goes past the instruction where a test holds, and ends the runs elsewhere: there the state breaks a rule of the instruction.
/// The test is given by the leaves of its answers over the path of the group.
pub fn pass_where<S: Space>(
    alloc: Global,
    site: &Site,
    space: &mut S,
    group: Group<S>,
    holds: &[Leaf<bool, S>],
) -> Result<Outcomes<S>, SpaceFault>
    requires group { IsGroup (S.sets space.old) group }
    requires past { HasPast site.now group }
    requires leaves { AreLeaves bool_cmp (S.sets space.old) holds.now }
    requires cover { Cover (S.sets space.old) (path_of group) holds.now }
    ensures extends { Extends (S.sets space.old) (S.sets space.new) }
    ensures gives { IfOk result (λ r. (heap : HeapView S S.Id) → GivesAt site.now.program.now (λ _. settled_by site.now (S.sets space.old) holds.now) (S.sets space.old) (S.sets space.new) group r.items.items heap) }
{
    let mut outcomes = Outcomes::new(alloc);
    let mut rest = group;
    for leaf in holds {
        let (part, left) = part_in(space, rest, leaf.condition)?;
        let made = passed_part(alloc, site, space, part, leaf.value)?;
        outcomes.append(made)?;
        let Some(others) = left else {
            return Ok(outcomes);
        };
        rest = others;
    }
    Ok(outcomes)
}
