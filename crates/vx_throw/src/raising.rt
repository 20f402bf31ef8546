//! Exceptions that an attempt raises: the object is made and thrown (JVMS 2.10).

ghost use Rattle.std.specs.Prelude.{◌≡◌, IfOk, true};
ghost use Rattle.std.specs.List.{list_all};
ghost use Rattle.vx_frames.specs.Giving.{AttemptsAt};
ghost use Rattle.vx_space.specs.Sets.{Extends};
ghost use Rattle.vx_standing.specs.Attempted.{is_placed};
ghost use Rattle.vx_throw.specs.Exceptions.{IsRaising, raised_from};

use crate::making::exception;
use crate::throwing::throw;
use std::alloc::Global;
use vx_cond::Cond;
use vx_group::{Callers, Group};
use vx_heap::Heap;
use vx_link::Program;
use vx_outcome::Outcomes;
use vx_space::{Space, SpaceFault};
use vx_value::{ClassId, Slot};

/// Raises an exception of a class in all runs of a group (JVMS 2.10): its object is made, that of its message before it, and thrown.
/// The heap changes in the group's path and nowhere else. After a refusal heap, group and callers are given up.
pub fn raise<S: Space>(
    alloc: Global,
    program: &Program,
    space: &mut S,
    heap: &mut Heap<S>,
    callers: &mut Callers<S>,
    group: Group<S>,
    class: ClassId,
    message: Option<u64>,
) -> Result<Outcomes<S>, SpaceFault>
    requires { IsRaising program.now (S.sets space.old) heap.old callers.old group message }
    ensures extends { Extends (S.sets space.old) (S.sets space.new) }
    ensures raised { IfOk result (λ r. AttemptsAt program.now (λ _ s. raised_from program.now heap.old class.0 message s) (S.sets space.old) (S.sets space.new) heap.old heap.new callers.old callers.new group r.items.items) }
    ensures placed { IfOk result (λ r. list_all is_placed r.items.items ≡ true) }
{
    let path = group.path();
    let object = exception(alloc, program, space, heap, class, message, path)?;
    let thrown = Cond::one(alloc, space, Slot::Ref(object), path)?;
    throw(alloc, program, space, heap, callers, group, thrown)
}
