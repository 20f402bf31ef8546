//! Stores of elements (JVMS 6.5 iastore and its kin).

ghost use Rattle.std.specs.Prelude.{◌≡◌, ◌<◌, Bool, IfOk, List, length, true};
ghost use Rattle.vx_arrays.specs.Elements.{kept, may_be, may_have, stored_place, written_place};
ghost use Rattle.vx_arrays.specs.Moving.{AreStored, AreWritten};
ghost use Rattle.vx_cells.specs.Places.{place_cmp};
ghost use Rattle.vx_cells.specs.Through.{ArePlacesHeld, place_at};
ghost use Rattle.vx_cond.specs.Cond.{IsCond};
ghost use Rattle.vx_cond.specs.Slots.{slot_at};
ghost use Rattle.vx_families.specs.Attempts.{IsAttemptBy, IsGiven};
ghost use Rattle.vx_group.specs.Group.{IsGroup, path_of};
ghost use Rattle.vx_group_states.specs.Answering.{operands_at};
ghost use Rattle.vx_list.specs.Places.{item_or};
ghost use Rattle.vx_ready.specs.Running.{IsRunning};
ghost use Rattle.vx_space.specs.Sets.{Extends};
ghost use Rattle.vx_value.specs.Slot.{slot_cmp};
ghost use Rattle.vx_value.specs.declared.slot.Slot.TheVariants.{Top};

use crate::elements::places_under;
use std::alloc::Global;
use vx_cells::{Place, passes_at, write_through};
use vx_cond::Cond;
use vx_families::slot_is_of;
use vx_group::Group;
use vx_group_states::{Answer, Site, carry_out, illegal};
use vx_heap::Heap;
use vx_java::arrays::component_of;
use vx_java::{Element, Operation, assignable};
use vx_link::Program;
use vx_numbers::narrow;
use vx_outcome::Outcomes;
use vx_references::arrays::sort_of;
use vx_space::{Space, SpaceFault};
use vx_value::{ClassId, Narrow, Slot};

/// Whether an array of one class may have an object of another as an element, where there are both.
fn may_be(program: &Program, value: Option<ClassId>, array: Option<ClassId>) -> bool
    ensures { result ≡ may_be program.now value array }
{
    match (value, array) {
        (Some(class), Some(array)) => assignable(program, class, component_of(program, array)),
        _ => true,
    }
}

/// Whether an array may have a value as an element.
fn may_have<S: Space>(
    program: &Program,
    heap: &Heap<S>,
    element: Element,
    array: u64,
    value: Slot,
) -> bool
    ensures { result ≡ may_have program.now heap.now element array value }
{
    let Element::References = element else {
        return true;
    };
    may_be(
        program,
        heap.class_at(value),
        heap.class_at(Slot::Ref(array)),
    )
}

fn stored_place<S: Space>(
    program: &Program,
    heap: &Heap<S>,
    element: Element,
    value: Slot,
    found: Place,
) -> Place
    ensures { result ≡ stored_place program.now heap.now element value found }
{
    if !slot_is_of(sort_of(element), value) {
        return Place::Illegal;
    }
    match found {
        Place::At(array, _) if !may_have(program, heap, element, array, value) => Place::Refused,
        found => found,
    }
}

/// What a store keeps of a value.
fn kept(element: Element, value: Slot) -> Slot
    ensures { result ≡ kept element value }
{
    match (element, value) {
        (Element::Bytes, Slot::Int(n)) => Slot::Int(narrow(Narrow::Byte, n)),
        (Element::Chars, Slot::Int(n)) => Slot::Int(narrow(Narrow::Char, n)),
        (Element::Shorts, Slot::Int(n)) => Slot::Int(narrow(Narrow::Short, n)),
        _ => value,
    }
}

/// Where a store writes, at each configuration of a group that has three operands.
fn places_written<S: Space>(
    site: &Site,
    space: &mut S,
    heap: &Heap<S>,
    group: &Group<S>,
    element: Element,
) -> Result<Cond<Place, S>, SpaceFault>
    requires running { IsRunning site.now (S.sets space.old) heap.now group.now }
    requires operands { 2 < length group.now.top.stack.conds }
    ensures extends { Extends (S.sets space.old) (S.sets space.new) }
    ensures cond { IfOk result (IsCond place_cmp (S.sets space.new)) }
    ensures scope { IfOk result (λ r. r.scope ≡ path_of group.now) }
    ensures held { IfOk result (ArePlacesHeld (S.sets space.new) heap.now) }
    ensures at { IfOk result (λ r. (c : List Bool) → (S.sets space.old).test (path_of group.now) c ≡ true → place_at (S.sets space.new) r c ≡ written_place site.now.program.now heap.now element (operands_at (S.sets space.old) group.now.top.stack c)) }
{
    let program = site.program;
    let places = places_under(site, space, heap, group, element, 1)?;
    let at_element = |value: Slot, found: Place| -> Place
        ensures { result ≡ stored_place program.entry.now heap.entry.now element value found }
    { stored_place(program, heap, element, value, found) };
    let stack = &group.top_frame().stack;
    let value = stack.get(stack.len() - 1);
    let stored = value.zip(space, &places, at_element)?;
    Ok(stored)
}

/// What a store writes, at each configuration of a group that has an operand.
fn values_kept<S: Space>(
    space: &mut S,
    group: &Group<S>,
    element: Element,
) -> Result<Cond<Slot, S>, SpaceFault>
    requires group { IsGroup (S.sets space.old) group.now }
    requires operand { 0 < length group.now.top.stack.conds }
    ensures extends { Extends (S.sets space.old) (S.sets space.new) }
    ensures cond { IfOk result (IsCond slot_cmp (S.sets space.new)) }
    ensures scope { IfOk result (λ r. r.scope ≡ path_of group.now) }
    ensures at { IfOk result (λ r. (c : List Bool) → (S.sets space.old).test (path_of group.now) c ≡ true → slot_at (S.sets space.new) r c ≡ kept element (item_or (operands_at (S.sets space.old) group.now.top.stack c) 0 Top)) }
{
    let as_kept = |value: Slot| -> Slot
        ensures { result ≡ kept element value }
    { kept(element, value) };
    let stack = &group.top_frame().stack;
    let value = stack.get(stack.len() - 1);
    let values = value.map(space, as_kept)?;
    Ok(values)
}

/// Writes the elements, and says where, at each configuration of a group that has three operands.
fn written<S: Space>(
    site: &Site,
    space: &mut S,
    heap: &mut Heap<S>,
    group: &Group<S>,
    element: Element,
) -> Result<Cond<Place, S>, SpaceFault>
    requires running { IsRunning site.now (S.sets space.old) heap.old group.now }
    requires operands { 2 < length group.now.top.stack.conds }
    ensures extends { Extends (S.sets space.old) (S.sets space.new) }
    ensures ok { IfOk result (AreWritten site.now element (S.sets space.old) (S.sets space.new) heap.old heap.new group.now) }
{
    let places = places_written(site, space, heap, group, element)?;
    let values = values_kept(space, group, element)?;
    write_through(space, heap, &places, &values)?;
    Ok(places)
}

/// What a store comes to, at each configuration of a group that has three operands.
fn stored<S: Space>(
    alloc: Global,
    site: &Site,
    space: &mut S,
    heap: &mut Heap<S>,
    group: &Group<S>,
    element: Element,
) -> Result<Cond<Answer, S>, SpaceFault>
    requires running { IsRunning site.now (S.sets space.old) heap.old group.now }
    requires operands { 2 < length group.now.top.stack.conds }
    ensures extends { Extends (S.sets space.old) (S.sets space.new) }
    ensures ok { IfOk result (AreStored site.now element (S.sets space.old) (S.sets space.new) heap.old heap.new group.now) }
{
    let places = written(site, space, heap, group, element)?;
    let answers = passes_at(alloc, site.program, space, heap, &places)?;
    Ok(answers)
}

/// iastore, lastore, aastore, bastore, castore and sastore.
pub(crate) fn store_element<S: Space>(
    alloc: Global,
    site: &Site,
    space: &mut S,
    heap: &mut Heap<S>,
    element: Element,
    group: Group<S>,
) -> Result<Outcomes<S>, SpaceFault>
    requires { IsGiven site.now (Operation.StoreElement element) (S.sets space.old) heap.old group }
    ensures extends { Extends (S.sets space.old) (S.sets space.new) }
    ensures ok { IfOk result (λ r. IsAttemptBy site.now (Operation.StoreElement element) (S.sets space.old) (S.sets space.new) heap.old heap.new group r.items.items) }
{
    if group.top_frame().stack.len() < 3 {
        return illegal(alloc, site.program, &group);
    }
    let answers = stored(alloc, site, space, heap, &group, element)?;
    carry_out(alloc, site, space, group, 3, &answers)
}
