//! New arrays of one dimension (JVMS 6.5 newarray, anewarray).

ghost use Rattle.std.specs.Prelude.{IfOk};
ghost use Rattle.vx_families.specs.Attempts.{IsAttemptBy, IsGiven};
ghost use Rattle.vx_space.specs.Sets.{Extends};

use crate::classes::array_over;
use crate::grids::new_arrays;
use std::alloc::Global;
use vx_families::{FLOAT_WORD, no_class, unsupported};
use vx_group::Group;
use vx_group_states::Site;
use vx_heap::Heap;
use vx_java::Operation;
use vx_java::parts::class_of_method;
use vx_outcome::Outcomes;
use vx_references::arrays::{array_of_primitives, element_of_number, is_float};
use vx_space::{Space, SpaceFault};
use vx_value::Name;

/// newarray. A float or a double ends the run.
pub(crate) fn new_primitives<S: Space>(
    alloc: Global,
    site: &Site,
    space: &mut S,
    heap: &mut Heap<S>,
    number: u32,
    group: Group<S>,
) -> Result<Outcomes<S>, SpaceFault>
    requires { IsGiven site.now (Operation.NewPrimitives number) (S.sets space.old) heap.old group }
    ensures extends { Extends (S.sets space.old) (S.sets space.new) }
    ensures ok { IfOk result (λ r. IsAttemptBy site.now (Operation.NewPrimitives number) (S.sets space.old) (S.sets space.new) heap.old heap.new group r.items.items) }
{
    let element = element_of_number(number);
    if is_float(element) {
        let what = Name::of(alloc, b"-")?;
        return unsupported(alloc, site.program, &group, FLOAT_WORD, what);
    }
    let class = array_of_primitives(site.program, element);
    new_arrays(alloc, site, space, heap, class, 1, group)
}

/// anewarray.
pub(crate) fn new_references<S: Space>(
    alloc: Global,
    site: &Site,
    space: &mut S,
    heap: &mut Heap<S>,
    index: u16,
    group: Group<S>,
) -> Result<Outcomes<S>, SpaceFault>
    requires { IsGiven site.now (Operation.NewReferences index) (S.sets space.old) heap.old group }
    ensures extends { Extends (S.sets space.old) (S.sets space.new) }
    ensures ok { IfOk result (λ r. IsAttemptBy site.now (Operation.NewReferences index) (S.sets space.old) (S.sets space.new) heap.old heap.new group r.items.items) }
{
    let class = class_of_method(site.program, group.top_frame().method);
    let Some(component) = heap.resolved(site.program, class, index) else {
        return no_class(alloc, site, &group, index);
    };
    let class = array_over(site.program, component);
    new_arrays(alloc, site, space, heap, class, 1, group)
}
