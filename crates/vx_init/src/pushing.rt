//! The frames of a chain of classes whose initialisation begins (JVMS 5.5).

ghost use Rattle.std.specs.Prelude.{◌≡◌, ◌<◌, ◌+◌, ◌^◌, IfOk, length};
ghost use Rattle.vx_group.specs.Callers.{Keeps};
ghost use Rattle.vx_group.specs.Group.{IsGroupIn, depth_of};
ghost use Rattle.vx_init.specs.Beginning.{IsChainPushed, kind_of};

use std::alloc::Global;
use vx_frames::entered;
use vx_group::{Callers, Group};
use vx_java::parts::initialiser_of;
use vx_link::Program;
use vx_space::{Space, SpaceFault};
use vx_value::{ClassId, Kind};

/// The kind of the frame of a class of a chain.
fn kind_of(is_last: bool) -> Kind
    ensures { result ≡ kind_of is_last }
{
    if is_last { Kind::Init } else { Kind::Wait }
}

/// Pushes a frame on a group for each class of a chain, from a class upward: the frame of the last class is on top and is the next to
/// initialise, and those of the others wait. The frame that was on top stays where it stands under them (JVMS 5.5). The bound on frames
/// is asked before.
pub fn push_chain<S: Space>(
    alloc: Global,
    program: &Program,
    space: &S,
    callers: &mut Callers<S>,
    group: Group<S>,
    chain: &[ClassId],
) -> Result<Group<S>, SpaceFault>
    requires group { IsGroupIn (S.sets space.now) callers.old group }
    requires depth { depth_of group + length chain.now < 2 ^ 32 }
    ensures keeps { Keeps callers.old callers.new }
    ensures pushed { IfOk result (IsChainPushed program.now (S.sets space.now) callers.old callers.new group chain.now) }
{
    let mut pushed = group;
    for place in 0..chain.len() {
        let kind = kind_of(place + 1 == chain.len());
        let method = initialiser_of(program, chain[place]);
        let none = Vec::new(alloc);
        pushed = entered(alloc, program, space, callers, pushed, kind, method, none)?;
    }
    Ok(pushed)
}
