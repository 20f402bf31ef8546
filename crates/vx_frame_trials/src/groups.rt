//! Groups that the trials begin with: a method with an operand that differs by the first option, and one that it calls.

ghost use Rattle.std.specs.Prelude.{◌≡◌, ◌≤◌, IfOk};
ghost use Rattle.vx_space.specs.Sets.{IsKnown, Extends};
ghost use Rattle.vx_group.specs.Group.{IsGroupIn, depth_of, path_of};
ghost use Rattle.vx_java.specs.Initialisation.{max_locals};
ghost use Rattle.vx_link.specs.Parts.{method_at};
ghost use Rattle.vx_frames.specs.Entering.{AreArguments};
ghost use Rattle.vx_frame_trials.specs.Called.{IsAlone, IsShort};

use std::alloc::Global;
use vx_cond::Cond;
use vx_frame::Frame;
use vx_frames::entered;
use vx_group::{Callers, Group};
use vx_link::Program;
use vx_space::{Space, SpaceFault};
use vx_value::{Kind, MethodId, Slot};

/// 2 inside a condition, and 1 outside.
fn differing<S: Space>(alloc: Global, space: &mut S, on: S::Id) -> Result<Cond<Slot, S>, SpaceFault>
    requires { IsKnown (S.sets space.old) on }
    ensures extends { Extends (S.sets space.old) (S.sets space.new) }
    ensures short { IfOk result (IsShort (S.sets space.new)) }
{
    let one = Cond::one(alloc, space, Slot::Int(1), space.always())?;
    let two = Cond::one(alloc, space, Slot::Int(2), on)?;
    let both = one.overwrite(space, &two)?;
    Ok(both)
}

/// All configurations in method 0, with an operand that differs.
fn caller<S: Space>(alloc: Global, space: &mut S, on: S::Id) -> Result<Group<S>, SpaceFault>
    requires { IsKnown (S.sets space.old) on }
    ensures extends { Extends (S.sets space.old) (S.sets space.new) }
    ensures alone { IfOk result (IsAlone (S.sets space.new)) }
{
    let operand = differing(alloc, space, on)?;
    let attempts = Cond::one(alloc, space, 0, space.always())?;
    let mut frame = Frame::new(alloc, space, Kind::Call, MethodId(0), 4, space.always())?;
    frame.stack.push(operand)?;
    let group = Group::new(alloc, attempts, frame);
    Ok(group)
}

/// A long, and an int that differs.
fn arguments<S: Space>(
    alloc: Global,
    space: &mut S,
    on: S::Id,
) -> Result<Vec<Cond<Slot, S>>, SpaceFault>
    requires { IsKnown (S.sets space.old) on }
    ensures extends { Extends (S.sets space.old) (S.sets space.new) }
    ensures arguments { IfOk result (λ r. AreArguments (S.sets space.new) (S.sets space.new).always 3 r.items) }
{
    let int = differing(alloc, space, on)?;
    let long = Cond::one(alloc, space, Slot::Long(7), space.always())?;
    let mut arguments = Vec::new(alloc);
    arguments.push(long)?;
    arguments.push(int)?;
    Ok(arguments)
}

/// All configurations in method 1, which was called by method 0 with a long and an int.
pub(crate) fn called<S: Space>(
    alloc: Global,
    program: &Program,
    space: &mut S,
    callers: &mut Callers<S>,
    on: S::Id,
) -> Result<Group<S>, SpaceFault>
    requires known { IsKnown (S.sets space.old) on }
    requires room { 3 ≤ max_locals (method_at program.now 1).code }
    ensures extends { Extends (S.sets space.old) (S.sets space.new) }
    ensures group { IfOk result (IsGroupIn (S.sets space.new) callers.new) }
    ensures depth { IfOk result (λ r. depth_of r ≡ 2) }
{
    let group = caller(alloc, space, on)?;
    let arguments = arguments(alloc, space, on)?;
    let group = entered(
        alloc,
        program,
        space,
        callers,
        group,
        Kind::Call,
        MethodId(1),
        arguments,
    )?;
    Ok(group)
}
