//! What stands where a frame was pushed, and where it was taken off again.

ghost use Rattle.std.specs.Prelude.{◌≡◌, ◌≤◌, ◌<◌};
ghost use Rattle.vx_space.specs.Sets.{Extends};
ghost use Rattle.vx_group.specs.Group.{IsGroupIn, depth_of};
ghost use Rattle.vx_java.specs.Initialisation.{max_locals};
ghost use Rattle.vx_link.specs.Parts.{method_at};

use crate::groups::called;
use crate::methods::program;
use crate::options::first_option;
use std::alloc::Global;
use vx_cond::{Cond, Row};
use vx_frame::Frame;
use vx_frames::{begun, frames_are_passed, max_locals, uncovered, woken};
use vx_group::{Callers, Group};
use vx_link::Program;
use vx_space::{Space, SpaceFault};
use vx_value::{Kind, MethodId, Slot};

/// Whether a value is one in all its configurations.
fn is_one<S: Space>(value: &Cond<Slot, S>, slot: Slot) -> bool {
    let leaves = value.leaves();
    leaves.len() == 1 && leaves[0].value == slot
}

/// Whether a value is 1 in some configurations and 2 in others.
fn is_one_or_two<S: Space>(value: &Cond<Slot, S>) -> bool {
    let leaves = value.leaves();
    leaves.len() == 2 && leaves[0].value == Slot::Int(1) && leaves[1].value == Slot::Int(2)
}

/// Whether four locals are a long with its second half, an int that differs, and one that can't be read.
fn are_locals<S: Space>(locals: &Row<Slot, S>) -> bool {
    locals.len() == 4
        && is_one(locals.get(0), Slot::Long(7))
        && is_one(locals.get(1), Slot::Top)
        && is_one_or_two(locals.get(2))
        && is_one(locals.get(3), Slot::Top)
}

/// Whether a frame is that of the called method at its start.
fn is_begun<S: Space>(frame: &Frame<S>) -> bool {
    frame.method == MethodId(1)
        && frame.position == 0
        && frame.stack.len() == 0
        && are_locals(&frame.locals)
}

/// A frame that is pushed begins with the arguments, above its caller. Once it is taken off the caller is on top as it was.
fn entered_and_left<S: Space>(
    alloc: Global,
    program: &Program,
    space: &mut S,
    callers: &mut Callers<S>,
) -> Result<bool, SpaceFault>
    requires { 3 ≤ max_locals (method_at program.now 1).code }
{
    let on = first_option(space)?;
    let group = called(alloc, program, space, callers, on)?;
    let is_entered = group.depth() == 2 && is_begun(group.top_frame());
    let (group, frame) = uncovered(space, callers, group)?;
    let top = group.top_frame();
    let is_left = group.depth() == 1 && top.method == MethodId(0) && is_begun(&frame);
    Ok(is_entered && is_left && top.stack.len() == 1 && is_one_or_two(top.stack.get(0)))
}

/// Whether a group's frame, once it is taken off, leaves a caller whose operand is one value in the group's path alone.
fn keeps_its_own<S: Space>(
    space: &mut S,
    callers: &mut Callers<S>,
    group: Group<S>,
    slot: Slot,
) -> Result<bool, SpaceFault>
    requires group { IsGroupIn (S.sets space.old) callers.old group }
    requires called { 1 < depth_of group }
    ensures extends { Extends (S.sets space.old) (S.sets space.new) }
    ensures callers { callers.new ≡ callers.old }
{
    let path = group.path();
    let (group, _frame) = uncovered(space, callers, group)?;
    let stack = &group.top_frame().stack;
    Ok(stack.len() == 1 && is_one(stack.get(0), slot) && stack.get(0).scope() == path)
}

/// Two parts of a group share their caller, and each gets of its operands what is in the path.
fn shared<S: Space>(
    alloc: Global,
    program: &Program,
    space: &mut S,
    callers: &mut Callers<S>,
) -> Result<bool, SpaceFault>
    requires { 3 ≤ max_locals (method_at program.now 1).code }
{
    let on = first_option(space)?;
    let group = called(alloc, program, space, callers, on)?;
    let (inside, outside) = group.split(space, on)?;
    let is_two = keeps_its_own(space, callers, inside, Slot::Int(2))?;
    let is_one = keeps_its_own(space, callers, outside, Slot::Int(1))?;
    Ok(is_two && is_one && callers.len() == 1)
}

/// A frame that waits is the next to initialise once it wakes.
fn woke<S: Space>(alloc: Global, program: &Program, space: &S) -> Result<bool, SpaceFault> {
    let path = space.always();
    let attempts = Cond::one(alloc, space, 0, path)?;
    let arguments = Vec::new(alloc);
    let frame = begun(
        alloc,
        program,
        space,
        path,
        Kind::Wait,
        MethodId(1),
        arguments,
    )?;
    let waiting = Group::new(alloc, attempts, frame);
    let group = woken(space, waiting);
    let top = group.top_frame();
    Ok(top.kind == Kind::Init && top.locals.len() == 4)
}

/// What trials of frames show over a space with an option.
pub(crate) fn are_right<S: Space>(alloc: Global, space: &mut S) -> Result<bool, SpaceFault> {
    let program = program(alloc)?;
    frames_are_passed();
    if max_locals(&program, MethodId(1)) < 3 {
        return Ok(false);
    }
    Ok(
        woke(alloc, &program, space)?
            && entered_and_left(alloc, &program, space, &mut Callers::new(alloc))?
            && shared(alloc, &program, space, &mut Callers::new(alloc))?,
    )
}
