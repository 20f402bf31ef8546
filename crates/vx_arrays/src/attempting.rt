//! The attempts of the family.

ghost use Rattle.std.specs.Prelude.{◌≡◌, IfOk, true};
ghost use Rattle.vx_arrays.specs.Family.{is_of_arrays};
ghost use Rattle.vx_families.specs.Attempts.{IsAttemptBy, IsGiven};
ghost use Rattle.vx_space.specs.Sets.{Extends};

use crate::grids::new_grid;
use crate::loading::{array_length, load_element};
use crate::making::{new_primitives, new_references};
use crate::storing::store_element;
use std::alloc::Global;
use vx_group::Group;
use vx_group_states::Site;
use vx_heap::Heap;
use vx_java::Operation;
use vx_outcome::Outcomes;
use vx_space::{Space, SpaceFault};

/// One attempt of a group by an instruction of arrays (JVMS 6.5): each run does what its own array, index, value and lengths
/// say. The only refusal is want of memory; heap and group are given up then.
pub fn attempt<S: Space>(
    alloc: Global,
    site: &Site,
    space: &mut S,
    heap: &mut Heap<S>,
    operation: Operation,
    group: Group<S>,
) -> Result<Outcomes<S>, SpaceFault>
    requires given { IsGiven site.now operation (S.sets space.old) heap.old group }
    requires family { is_of_arrays operation ≡ true }
    ensures extends { Extends (S.sets space.old) (S.sets space.new) }
    ensures ok { IfOk result (λ r. IsAttemptBy site.now operation (S.sets space.old) (S.sets space.new) heap.old heap.new group r.items.items) }
{
    match operation {
        Operation::NewPrimitives(number) => new_primitives(alloc, site, space, heap, number, group),
        Operation::NewReferences(index) => new_references(alloc, site, space, heap, index, group),
        Operation::NewGrid(index, dimensions) => {
            new_grid(alloc, site, space, heap, index, dimensions, group)
        }
        Operation::LoadElement(element) => load_element(alloc, site, space, heap, element, group),
        Operation::StoreElement(element) => store_element(alloc, site, space, heap, element, group),
        Operation::Length => array_length(alloc, site, space, heap, group),
        _ => unreachable!(),
    }
}
