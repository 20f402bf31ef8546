//! getfield and putfield for all configurations of a group at once (JVMS 6.5).

ghost use Rattle.std.specs.Prelude.{◌≡◌, ◌+◌, ◌<◌, ◌^◌, Bool, IfOk, List, drop, length, nat_le, true};
ghost use Rattle.vx_cells.specs.Places.{place_cmp, place_if};
ghost use Rattle.vx_cells.specs.Through.{ArePlacesHeld, place_at};
ghost use Rattle.vx_cond.specs.Cond.{IsCond};
ghost use Rattle.vx_families.specs.Attempts.{AttemptsBy, IsAttemptBy, IsGiven};
ghost use Rattle.vx_cond.specs.Slots.{slot_at};
ghost use Rattle.vx_families.specs.Sorts.{narrowed_slot};
ghost use Rattle.vx_group.specs.Group.{IsGroup, path_of};
ghost use Rattle.vx_group_states.specs.Answering.{operands_at};
ghost use Rattle.vx_group_states.specs.Sites.{here};
ghost use Rattle.vx_group_states.specs.Widths.{slots_size};
ghost use Rattle.vx_java.specs.Checks.{sort_of, width_of_type};
ghost use Rattle.vx_java.specs.Fields.{get_from, put_into};
ghost use Rattle.vx_java.specs.FirstObjects.{narrow_of_type};
ghost use Rattle.vx_link.specs.Parts.{field_at};
ghost use Rattle.vx_list.specs.Places.{item_or};
ghost use Rattle.vx_objects.specs.Answers.{field_place, stored_place};
ghost use Rattle.vx_objects.specs.Written.{IsPut};
ghost use Rattle.vx_ready.specs.Running.{IsRunning};
ghost use Rattle.vx_space.specs.Sets.{Extends};
ghost use Rattle.vx_value.specs.Slot.{slot_cmp};
ghost use Rattle.vx_value.specs.declared.slot.Slot.TheVariants.{Top};

use crate::instances::is_instance;
use std::alloc::Global;
use vx_cells::{Place, passes_at, place_if, read_through, where_room, write_through};
use vx_cond::Cond;
use vx_desc::JavaType;
use vx_families::{fits, narrowed, second_operand, top_operand};
use vx_fields::field_named;
use vx_fields::unresolved::unresolved;
use vx_group::Group;
use vx_group_states::{Site, carry_out, illegal};
use vx_heap::Heap;
use vx_java::Operation;
use vx_java::parts::{cell_of, class_of_method};
use vx_link::Program;
use vx_outcome::Outcomes;
use vx_references::fields::width_of;
use vx_references::{FieldReference, named_member};
use vx_space::{Space, SpaceFault};
use vx_value::{ClassId, FieldId, Slot};

fn field_place<S: Space>(
    program: &Program,
    heap: &Heap<S>,
    named: ClassId,
    cell: u32,
    object: Slot,
) -> Place
    ensures { result ≡ field_place program.now heap.now named.0 cell object }
{
    match object {
        Slot::Null => Place::Null,
        Slot::Ref(reference) if is_instance(program, heap, named, object) => {
            Place::At(reference, cell)
        }
        _ => Place::Illegal,
    }
}

/// Where a getfield reads, at each configuration of a group that has an operand.
fn places_read<S: Space>(
    alloc: Global,
    site: &Site,
    space: &mut S,
    heap: &Heap<S>,
    group: &Group<S>,
    named: ClassId,
    field: FieldId,
    field_type: JavaType,
) -> Result<Cond<Place, S>, SpaceFault>
    requires running { IsRunning site.now (S.sets space.old) heap.now group.now }
    requires operand { 0 < length group.now.top.stack.conds }
    requires few { length group.now.top.stack.conds < 2 ^ 32 }
    ensures extends { Extends (S.sets space.old) (S.sets space.new) }
    ensures cond { IfOk result (IsCond place_cmp (S.sets space.new)) }
    ensures scope { IfOk result (λ r. r.scope ≡ path_of group.now) }
    ensures held { IfOk result (ArePlacesHeld (S.sets space.new) heap.now) }
    ensures at { IfOk result (λ r. (c : List Bool) → (S.sets space.old).test (path_of group.now) c ≡ true → place_at (S.sets space.new) r c ≡ place_if (field_place site.now.program.now heap.now named.0 (field_at site.now.program.now field.0).cell (item_or (operands_at (S.sets space.old) group.now.top.stack c) 0 Top)) (nat_le (width_of_type field_type + slots_size (drop 1 (operands_at (S.sets space.old) group.now.top.stack c))) site.now.code.now.max_stack)) }
{
    let program = site.program;
    let cell = cell_of(program, field);
    let at_object = |object: Slot| -> Place
        ensures { result ≡ field_place program.entry.now heap.entry.now named.0 cell object }
    { field_place(program, heap, named, cell, object) };
    let places = top_operand(group).map(space, at_object)?;
    let stack = &group.top_frame().stack;
    let width = width_of(field_type);
    let rooms = where_room(alloc, space, stack, 1, width, site.code.max_stack)?;
    let within = places.zip(space, &rooms, place_if)?;
    Ok(within)
}

/// getfield of a field that is there.
fn get_found<S: Space>(
    alloc: Global,
    site: &Site,
    space: &mut S,
    heap: &mut Heap<S>,
    group: Group<S>,
    named: ClassId,
    field: FieldId,
    field_type: JavaType,
) -> Result<Outcomes<S>, SpaceFault>
    requires { (o : Operation) × IsGiven site.now o (S.sets space.old) heap.old group }
    ensures extends { Extends (S.sets space.old) (S.sets space.new) }
    ensures ok { IfOk result (λ r. AttemptsBy site.now (λ s. get_from (here site.now s) (record { named = named.0; field = field.0; type = field_type }) s.top.operands) (S.sets space.old) (S.sets space.new) heap.old heap.new group r.items.items) }
{
    let program = site.program;
    if group.top_frame().stack.len() == 0 {
        return illegal(alloc, program, &group);
    }
    let places = places_read(alloc, site, space, heap, &group, named, field, field_type)?;
    let answers = read_through(alloc, program, space, heap, &places)?;
    carry_out(alloc, site, space, group, 1, &answers)
}

/// Where a putfield writes, at each configuration of a group that has two operands.
fn places_written<S: Space>(
    site: &Site,
    space: &mut S,
    heap: &Heap<S>,
    group: &Group<S>,
    named: ClassId,
    field: FieldId,
    field_type: JavaType,
) -> Result<Cond<Place, S>, SpaceFault>
    requires running { IsRunning site.now (S.sets space.old) heap.now group.now }
    requires operands { 1 < length group.now.top.stack.conds }
    ensures extends { Extends (S.sets space.old) (S.sets space.new) }
    ensures cond { IfOk result (IsCond place_cmp (S.sets space.new)) }
    ensures scope { IfOk result (λ r. r.scope ≡ path_of group.now) }
    ensures held { IfOk result (ArePlacesHeld (S.sets space.new) heap.now) }
    ensures at { IfOk result (λ r. (c : List Bool) → (S.sets space.old).test (path_of group.now) c ≡ true → place_at (S.sets space.new) r c ≡ stored_place site.now.program.now heap.now named.0 (field_at site.now.program.now field.0).cell (sort_of field_type) (item_or (operands_at (S.sets space.old) group.now.top.stack c) 0 Top) (item_or (operands_at (S.sets space.old) group.now.top.stack c) 1 Top)) }
{
    let program = site.program;
    let cell = cell_of(program, field);
    let at_object = |value: Slot, object: Slot| -> Place
        ensures { result ≡ stored_place program.entry.now heap.entry.now named.0 cell (sort_of field_type) value object }
    {
        place_if(
            field_place(program, heap, named, cell, object),
            fits(field_type, value),
        )
    };
    let places = top_operand(group).zip(space, second_operand(group), at_object)?;
    Ok(places)
}

/// The operand on top of a group, as a store to a field of a type puts it there.
fn values_written<S: Space>(
    space: &mut S,
    group: &Group<S>,
    field_type: JavaType,
) -> Result<Cond<Slot, S>, SpaceFault>
    requires group { IsGroup (S.sets space.old) group.now }
    requires operand { 0 < length group.now.top.stack.conds }
    ensures extends { Extends (S.sets space.old) (S.sets space.new) }
    ensures cond { IfOk result (IsCond slot_cmp (S.sets space.new)) }
    ensures scope { IfOk result (λ r. r.scope ≡ path_of group.now) }
    ensures at { IfOk result (λ r. (c : List Bool) → (S.sets space.old).test (path_of group.now) c ≡ true → slot_at (S.sets space.new) r c ≡ narrowed_slot (narrow_of_type field_type) (item_or (operands_at (S.sets space.old) group.now.top.stack c) 0 Top)) }
{
    let as_stored = |slot: Slot| -> Slot
        ensures { result ≡ narrowed_slot (narrow_of_type field_type) slot }
    { narrowed(field_type, slot) };
    top_operand(group).map(space, as_stored)
}

/// Writes what a putfield writes, at each configuration of a group that has two operands, and says where.
fn put_through<S: Space>(
    site: &Site,
    space: &mut S,
    heap: &mut Heap<S>,
    group: &Group<S>,
    named: ClassId,
    field: FieldId,
    field_type: JavaType,
) -> Result<Cond<Place, S>, SpaceFault>
    requires given { (o : Operation) × IsGiven site.now o (S.sets space.old) heap.old group.now }
    requires operands { 1 < length group.now.top.stack.conds }
    ensures extends { Extends (S.sets space.old) (S.sets space.new) }
    ensures put { IfOk result (IsPut site.now (record { named = named.0; field = field.0; type = field_type }) (S.sets space.old) (S.sets space.new) heap.old heap.new group.now) }
{
    let places = places_written(site, space, heap, group, named, field, field_type)?;
    let values = values_written(space, group, field_type)?;
    write_through(space, heap, &places, &values)?;
    Ok(places)
}

/// putfield of a field that is there.
fn put_found<S: Space>(
    alloc: Global,
    site: &Site,
    space: &mut S,
    heap: &mut Heap<S>,
    group: Group<S>,
    named: ClassId,
    field: FieldId,
    field_type: JavaType,
) -> Result<Outcomes<S>, SpaceFault>
    requires { (o : Operation) × IsGiven site.now o (S.sets space.old) heap.old group }
    ensures extends { Extends (S.sets space.old) (S.sets space.new) }
    ensures ok { IfOk result (λ r. AttemptsBy site.now (λ s. put_into (here site.now s) (record { named = named.0; field = field.0; type = field_type }) s.top.operands) (S.sets space.old) (S.sets space.new) heap.old heap.new group r.items.items) }
{
    let program = site.program;
    if group.top_frame().stack.len() < 2 {
        return illegal(alloc, program, &group);
    }
    let places = put_through(site, space, heap, &group, named, field, field_type)?;
    let answers = passes_at(alloc, program, space, heap, &places)?;
    carry_out(alloc, site, space, group, 2, &answers)
}

/// getfield.
pub(crate) fn get_field<S: Space>(
    alloc: Global,
    site: &Site,
    space: &mut S,
    heap: &mut Heap<S>,
    index: u16,
    group: Group<S>,
) -> Result<Outcomes<S>, SpaceFault>
    requires { IsGiven site.now (Operation.GetField index) (S.sets space.old) heap.old group }
    ensures extends { Extends (S.sets space.old) (S.sets space.new) }
    ensures ok { IfOk result (λ r. IsAttemptBy site.now (Operation.GetField index) (S.sets space.old) (S.sets space.new) heap.old heap.new group r.items.items) }
{
    let program = site.program;
    let class = class_of_method(program, group.top_frame().method);
    match field_named(program, heap, class, index, false) {
        FieldReference::Found {
            named,
            field,
            field_type,
        } => get_found(alloc, site, space, heap, group, named, field, field_type),
        missing => {
            let named = named_member(program, class, index);
            unresolved(alloc, site, group, missing, &named)
        }
    }
}

/// putfield.
pub(crate) fn put_field<S: Space>(
    alloc: Global,
    site: &Site,
    space: &mut S,
    heap: &mut Heap<S>,
    index: u16,
    group: Group<S>,
) -> Result<Outcomes<S>, SpaceFault>
    requires { IsGiven site.now (Operation.PutField index) (S.sets space.old) heap.old group }
    ensures extends { Extends (S.sets space.old) (S.sets space.new) }
    ensures ok { IfOk result (λ r. IsAttemptBy site.now (Operation.PutField index) (S.sets space.old) (S.sets space.new) heap.old heap.new group r.items.items) }
{
    let program = site.program;
    let class = class_of_method(program, group.top_frame().method);
    match field_named(program, heap, class, index, false) {
        FieldReference::Found {
            named,
            field,
            field_type,
        } => put_found(alloc, site, space, heap, group, named, field, field_type),
        missing => {
            let named = named_member(program, class, index);
            unresolved(alloc, site, group, missing, &named)
        }
    }
}
