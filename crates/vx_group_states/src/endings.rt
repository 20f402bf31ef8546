//! Groups that come to one outcome as a whole.

ghost use Rattle.std.specs.Prelude.{IfOk};
ghost use Rattle.vx_space.specs.Sets.{Sets};
ghost use Rattle.vx_group.specs.Group.{IsGroup};
ghost use Rattle.vx_java.specs.Machine.{go, illegal_in};
ghost use Rattle.vx_group_states.specs.Sites.{Gives, HasPast, here};

use crate::site::Site;
use std::alloc::{AllocError, Global};
use vx_group::Group;
use vx_java::place;
use vx_link::Program;
use vx_outcome::{Outcome, Outcomes};
use vx_space::{Space, SpaceFault};
use vx_value::End;

/// All runs of a group end: the state breaks a rule of the instruction.
pub fn illegal<S: Space>(
    alloc: Global,
    program: &Program,
    group: &Group<S>,
) -> Result<Outcomes<S>, SpaceFault>
    ensures { IfOk result (λ r. (sets : Sets S.Id) → Gives program.now (illegal_in program.now) sets sets group.now r.items.items) }
{
    let top = group.top_frame();
    let place = place(alloc, program, top.method, top.position)?;
    let mut outcomes = Outcomes::new(alloc);
    outcomes.push(Outcome::Ended {
        condition: group.path(),
        end: End::Illegal(place),
    })?;
    Ok(outcomes)
}

/// All runs of a group go past the instruction.
pub fn pass<S: Space>(
    alloc: Global,
    site: &Site,
    space: &S,
    group: Group<S>,
) -> Result<Outcomes<S>, AllocError>
    requires group { IsGroup (S.sets space.now) group }
    requires past { HasPast site.now group }
    ensures { IfOk result (λ r. Gives site.now.program.now (λ s. go (here site.now s) s.top.operands) (S.sets space.now) (S.sets space.now) group r.items.items) }
{
    let (below, mut frame) = group.take_top();
    frame.position += site.size;
    Outcomes::go(alloc, below.put_top(frame))
}
