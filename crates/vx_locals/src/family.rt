//! One attempt of an instruction of constants or local variables.

ghost use Rattle.std.specs.Prelude.{◌≡◌, IfOk, true};
ghost use Rattle.vx_space.specs.Sets.{Extends};
ghost use Rattle.vx_families.specs.Attempts.{IsAttemptBy, IsGiven};
ghost use Rattle.vx_locals.specs.Family.{is_of_locals};

use crate::constants::push_constant;
use crate::entries::push_entry;
use crate::increasing::increase;
use crate::loading::load;
use crate::storing::store;
use std::alloc::Global;
use vx_group::Group;
use vx_group_states::{Site, pass};
use vx_heap::Heap;
use vx_java::Operation;
use vx_outcome::Outcomes;
use vx_space::{Space, SpaceFault};
use vx_value::Slot;

/// Whether an operation is of this family.
pub fn is_of_locals(operation: &Operation) -> bool
    ensures { result ≡ is_of_locals operation.now }
{
    match operation {
        Operation::Nop
        | Operation::PushNull
        | Operation::PushInt(_)
        | Operation::PushLong(_)
        | Operation::PushEntry(_)
        | Operation::Load(_, _)
        | Operation::Store(_, _)
        | Operation::Increase(_, _) => true,
        _ => false,
    }
}

/// One attempt of an operation of this family, at each configuration of the group's path. Ids that were known before keep
/// their sets; after want of memory heap and group are given up.
pub fn attempt<S: Space>(
    alloc: Global,
    site: &Site,
    space: &mut S,
    heap: &mut Heap<S>,
    operation: Operation,
    group: Group<S>,
) -> Result<Outcomes<S>, SpaceFault>
    requires given { IsGiven site.now operation (S.sets space.old) heap.old group }
    requires family { is_of_locals operation ≡ true }
    ensures extends { Extends (S.sets space.old) (S.sets space.new) }
    ensures ok { IfOk result (λ r. IsAttemptBy site.now operation (S.sets space.old) (S.sets space.new) heap.old heap.new group r.items.items) }
{
    match operation {
        Operation::Nop => {
            let passed = pass(alloc, site, space, group)?;
            Ok(passed)
        }
        Operation::PushNull => push_constant(alloc, site, space, group, Slot::Null),
        Operation::PushInt(n) => push_constant(alloc, site, space, group, Slot::Int(n)),
        Operation::PushLong(n) => push_constant(alloc, site, space, group, Slot::Long(n)),
        Operation::PushEntry(index) => push_entry(alloc, site, space, heap, group, index),
        Operation::Load(sort, place) => load(alloc, site, space, group, sort, place),
        Operation::Store(sort, place) => store(alloc, site, space, group, sort, place),
        Operation::Increase(place, by) => increase(alloc, site, space, group, place, by),
        _ => unreachable!(),
    }
}
