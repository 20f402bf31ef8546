//! The attempts of the family.

ghost use Rattle.std.specs.Prelude.{◌≡◌, IfOk, true};
ghost use Rattle.vx_families.specs.Attempts.{IsAttemptBy, IsGiven};
ghost use Rattle.vx_objects.specs.Family.{is_of_objects};
ghost use Rattle.vx_space.specs.Sets.{Extends};

use crate::casting::{check_cast, instance_of};
use crate::comparing::{if_same, monitor};
use crate::fields::{get_field, put_field};
use crate::making::new_instance;
use std::alloc::Global;
use vx_group::Group;
use vx_group_states::Site;
use vx_heap::Heap;
use vx_java::Operation;
use vx_outcome::Outcomes;
use vx_space::{Space, SpaceFault};

/// One attempt of a group by an instruction of objects (JVMS 6.5): each run does what its own object, value and class say. The
/// only refusal is want of memory; heap and group are given up then.
pub fn attempt<S: Space>(
    alloc: Global,
    site: &Site,
    space: &mut S,
    heap: &mut Heap<S>,
    operation: Operation,
    group: Group<S>,
) -> Result<Outcomes<S>, SpaceFault>
    requires given { IsGiven site.now operation (S.sets space.old) heap.old group }
    requires family { is_of_objects operation ≡ true }
    ensures extends { Extends (S.sets space.old) (S.sets space.new) }
    ensures ok { IfOk result (λ r. IsAttemptBy site.now operation (S.sets space.old) (S.sets space.new) heap.old heap.new group r.items.items) }
{
    match operation {
        Operation::New(index) => new_instance(alloc, site, space, heap, index, group),
        Operation::GetField(index) => get_field(alloc, site, space, heap, index, group),
        Operation::PutField(index) => put_field(alloc, site, space, heap, index, group),
        Operation::CheckCast(index) => check_cast(alloc, site, space, heap, index, group),
        Operation::InstanceOf(index) => instance_of(alloc, site, space, heap, index, group),
        Operation::Monitor => monitor(alloc, site, space, heap, group),
        Operation::IfSame(wanted, offset) => {
            if_same(alloc, site, space, heap, wanted, offset, group)
        }
        _ => unreachable!(),
    }
}
