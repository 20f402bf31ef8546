//! Where instructions of arrays find an element.

ghost use Rattle.std.specs.Prelude.{◌≡◌, ◌+◌, ◌<◌, Bool, IfOk, List, length, true};
ghost use Rattle.vx_arrays.specs.Elements.{element_place, place_within};
ghost use Rattle.vx_cells.specs.Places.{place_cmp};
ghost use Rattle.vx_cells.specs.Through.{ArePlacesHeld, place_at};
ghost use Rattle.vx_cond.specs.Cond.{IsCond};
ghost use Rattle.vx_group.specs.Group.{path_of};
ghost use Rattle.vx_group_states.specs.Answering.{operands_at};
ghost use Rattle.vx_list.specs.Places.{item_or};
ghost use Rattle.vx_ready.specs.Running.{IsRunning};
ghost use Rattle.vx_space.specs.Sets.{Extends};
ghost use Rattle.vx_value.specs.declared.slot.Slot.TheVariants.{Top};

use crate::classes::is_array_at;
use vx_cells::Place;
use vx_cond::Cond;
use vx_group::Group;
use vx_group_states::Site;
use vx_heap::Heap;
use vx_java::Element;
use vx_link::Program;
use vx_space::{Space, SpaceFault};
use vx_value::Slot;

/// The element of an index, which may be outside.
fn place_within<S: Space>(heap: &Heap<S>, array: u64, index: i32) -> Place
    ensures { result ≡ place_within heap.now array index }
{
    if index < 0 || index as u32 >= heap.length_of(array) {
        return Place::Outside(index);
    }
    Place::At(array, index as u32)
}

fn element_place<S: Space>(
    program: &Program,
    heap: &Heap<S>,
    element: Element,
    index: Slot,
    array: Slot,
) -> Place
    ensures { result ≡ element_place program.now heap.now element index array }
{
    match (index, array) {
        (Slot::Int(_), Slot::Null) => Place::Null,
        (Slot::Int(index), Slot::Ref(reference)) if is_array_at(program, heap, element, array) => {
            place_within(heap, reference, index)
        }
        _ => Place::Illegal,
    }
}

/// Where the element is whose index stands under so many operands of a group, over its array, at each configuration.
pub(crate) fn places_under<S: Space>(
    site: &Site,
    space: &mut S,
    heap: &Heap<S>,
    group: &Group<S>,
    element: Element,
    above: usize,
) -> Result<Cond<Place, S>, SpaceFault>
    requires running { IsRunning site.now (S.sets space.old) heap.now group.now }
    requires operands { above + 1 < length group.now.top.stack.conds }
    ensures extends { Extends (S.sets space.old) (S.sets space.new) }
    ensures cond { IfOk result (IsCond place_cmp (S.sets space.new)) }
    ensures scope { IfOk result (λ r. r.scope ≡ path_of group.now) }
    ensures held { IfOk result (ArePlacesHeld (S.sets space.new) heap.now) }
    ensures at { IfOk result (λ r. (c : List Bool) → (S.sets space.old).test (path_of group.now) c ≡ true → place_at (S.sets space.new) r c ≡ element_place site.now.program.now heap.now element (item_or (operands_at (S.sets space.old) group.now.top.stack c) above Top) (item_or (operands_at (S.sets space.old) group.now.top.stack c) (above + 1) Top)) }
{
    let program = site.program;
    let stack = &group.top_frame().stack;
    let at_element = |index: Slot, array: Slot| -> Place
        ensures { result ≡ element_place program.entry.now heap.entry.now element index array }
    { element_place(program, heap, element, index, array) };
    let count = stack.len();
    let index = stack.get(count - 1 - above);
    let array = stack.get(count - 2 - above);
    let places = index.zip(space, array, at_element)?;
    Ok(places)
}
