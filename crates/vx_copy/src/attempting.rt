//! The clone of arrays for all configurations of a group at once.

ghost use Rattle.std.specs.Prelude.{IfOk};
ghost use Rattle.vx_families.specs.Attempts.{AttemptsBy};
ghost use Rattle.vx_group_states.specs.Sites.{here};
ghost use Rattle.vx_java.specs.Calls.{clone_array};
ghost use Rattle.vx_java.specs.declared.operation.Mode.{Mode};
ghost use Rattle.vx_link.specs.Names.{Member};
ghost use Rattle.vx_ready.specs.Running.{IsRunning};
ghost use Rattle.vx_references.specs.Calls.{IsSound};
ghost use Rattle.vx_references.specs.declared.calls.MethodReference.TheVariants.{Clone};
ghost use Rattle.vx_space.specs.Sets.{Extends};
ghost use Rattle.vx_value.specs.declared.ids.ClassId.{ClassId};

use crate::cloning::clones;
use std::alloc::Global;
use vx_group::Group;
use vx_group_states::{Site, carry_out, illegal};
use vx_heap::Heap;
use vx_outcome::Outcomes;
use vx_space::{Space, SpaceFault};

/// All runs of a group call the clone of an array, whichever class the instruction names: the array on top of the operands is copied in
/// each run, and the copy pushed in its place. A run whose receiver is null raises an exception, and one whose receiver is no array
/// breaks a rule. The only refusal is want of memory; heap and group are given up then.
pub fn clone_arrays<S: Space>(
    alloc: Global,
    site: &Site,
    space: &mut S,
    heap: &mut Heap<S>,
    group: Group<S>,
) -> Result<Outcomes<S>, SpaceFault>
    requires running { IsRunning site.now (S.sets space.old) heap.old group }
    ensures extends { Extends (S.sets space.old) (S.sets space.new) }
    ensures ok { IfOk result (λ r. (mode : Mode) (m : Member) (named : ClassId) → IsSound site.now.program.now mode m (Clone named) → AttemptsBy site.now (λ s. clone_array (here site.now s) mode m named.0) (S.sets space.old) (S.sets space.new) heap.old heap.new group r.items.items) }
{
    let stack = &group.top_frame().stack;
    let count = stack.len();
    if count == 0 {
        return illegal(alloc, site.program, &group);
    }
    let receivers = stack.get(count - 1);
    let answers = clones(alloc, site.program, space, heap, receivers)?;
    carry_out(alloc, site, space, group, 1, &answers)
}
