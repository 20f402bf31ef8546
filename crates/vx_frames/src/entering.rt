//! Frames that are pushed on a group.

ghost use Rattle.std.specs.Prelude.{◌≡◌, ◌<◌, ◌^◌, IfOk, OnErr, suc};
ghost use Rattle.vx_group.specs.Callers.{Keeps};
ghost use Rattle.vx_group.specs.Group.{IsGroupIn, depth_of, path_of};
ghost use Rattle.vx_java.specs.Initialisation.{max_locals};
ghost use Rattle.vx_link.specs.Parts.{method_at};
ghost use Rattle.vx_frames.specs.Entering.{AreArguments, IsEntered};

use crate::beginning::begun;
use std::alloc::{AllocError, Global};
use vx_cond::Cond;
use vx_group::{Callers, Group};
use vx_link::Program;
use vx_space::Space;
use vx_value::{Kind, MethodId, Slot};

/// The most frames that a run may have (own).
pub const MOST_FRAMES: u32 = 1024;

/// Pushes the frame of a method that begins on a group: of one that is called, whose locals begin with the arguments, and of an
/// initialisation (JVMS 2.6, 5.5). The frame that was on top becomes a caller and stays where it stands. The arguments have the group's
/// path as scope, and the same of them are longs at each configuration of it. The bound on frames is asked before. After a refusal the
/// callers are as they were, and the group is given up.
pub fn entered<S: Space>(
    alloc: Global,
    program: &Program,
    space: &S,
    callers: &mut Callers<S>,
    group: Group<S>,
    kind: Kind,
    method: MethodId,
    arguments: Vec<Cond<Slot, S>>,
) -> Result<Group<S>, AllocError>
    requires group { IsGroupIn (S.sets space.now) callers.old group }
    requires depth { suc (depth_of group) < 2 ^ 32 }
    requires arguments { AreArguments (S.sets space.now) (path_of group) (max_locals (method_at program.now method.0).code) arguments.items }
    ensures keeps { Keeps callers.old callers.new }
    ensures entered { IfOk result (IsEntered program.now (S.sets space.now) callers.old callers.new group kind method arguments.items) }
    ensures err { OnErr result (callers.new ≡ callers.old) }
{
    let mut group = group;
    let frame = begun(alloc, program, space, group.path(), kind, method, arguments)?;
    group.push(callers, space, frame)?;
    Ok(group)
}
