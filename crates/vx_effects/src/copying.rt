//! Elements that are copied from one array to another.

ghost use Rattle.std.specs.Prelude.{◌≡◌, ◌&&◌, ◌+◌, ◌<◌, ◌≤◌, ◌^◌, [], Bool, IfOk, List, None, OnOk, Some, if◌then◌else◌, length, true};
ghost use Rattle.vx_cond.specs.Cond.{IsCond, IsInside};
ghost use Rattle.vx_cond.specs.Slots.{slot_at};
ghost use Rattle.vx_effects.specs.Carrying.{IsHeldIn};
ghost use Rattle.vx_effects.specs.Copying.{AreCopied, AreElements, AreParts, IsElement, component_in, fits_class, values_at, with_values};
ghost use Rattle.vx_group_states.specs.Answering.{answer_at};
ghost use Rattle.vx_group_states.specs.Answers.{answer_cmp};
ghost use Rattle.vx_group_states.specs.Sites.{IsSomewhere};
ghost use Rattle.vx_heap.specs.Changing.{IsChangedIn};
ghost use Rattle.vx_heap.specs.Heap.{IsHeap, class_at_slot, is_held, name_at, object_in};
ghost use Rattle.vx_java.specs.Ids.{HasClassNumbers, as_class};
ghost use Rattle.vx_link.specs.ClassNames.{core_class};
ghost use Rattle.vx_natives.specs.Deeds.{copies, deed_says};
ghost use Rattle.vx_natives.specs.Doing.{IsDone};
ghost use Rattle.vx_space.specs.Sets.{Extends, IsKnown, IsSet};
ghost use Rattle.vx_value.specs.Slot.{slot_cmp};

use crate::giving::raised;
use std::alloc::Global;
use vx_cells::with_answer;
use vx_cond::{Cond, Row};
use vx_group_states::Answer;
use vx_heap::Heap;
use vx_java::arrays::{component_of, has_reference_components};
use vx_java::assignable;
use vx_link::Program;
use vx_natives::Exception;
use vx_ready::where_yes;
use vx_space::{Space, SpaceFault};
use vx_value::{ClassId, Slot};

/// The class of the components of arrays of a class, where they are references.
fn components_of(program: &Program, class: ClassId) -> Option<ClassId>
    ensures { result ≡ component_in program.now (Some class) }
{
    if !has_reference_components(program, class) {
        return None;
    }
    Some(component_of(program, class))
}

/// The class of the components of an array of references; there is none of another array.
fn component_in(program: &Program, array: Option<ClassId>) -> Option<ClassId>
    ensures { result ≡ component_in program.now array }
{
    match array {
        Some(class) => components_of(program, class),
        None => None,
    }
}

/// Whether an element of a class, where it is an object, fits in an array of references to a class.
fn fits_class(program: &Program, component: ClassId, class: Option<ClassId>) -> bool
    ensures { result ≡ fits_class program.now component class }
{
    match class {
        Some(class) => assignable(program, class, component),
        None => true,
    }
}

/// The configurations in which a value fits in an array of references to a class.
fn where_fitting<S: Space>(
    program: &Program,
    space: &mut S,
    heap: &Heap<S>,
    component: ClassId,
    value: &Cond<Slot, S>,
) -> Result<S::Id, SpaceFault>
    requires value { IsCond slot_cmp (S.sets space.old) value.now }
    ensures extends { Extends (S.sets space.old) (S.sets space.new) }
    ensures set { IfOk result (λ r. IsSet (S.sets space.new) r (λ c. (S.sets space.old).test value.now.scope c && fits_class program.now component (class_at_slot heap.now (slot_at (S.sets space.old) value.now c)))) }
{
    let fits = |slot: Slot| -> bool
        ensures { result ≡ fits_class program.entry.now component (class_at_slot heap.entry.now slot) }
    { fits_class(program, component, heap.class_at(slot)) };
    let answers = value.map(space, fits)?;
    Ok(where_yes(space, &answers))
}

/// An element of an array inside a condition, there where it fits in an array of such components.
fn element<S: Space>(
    program: &Program,
    space: &mut S,
    heap: &Heap<S>,
    component: Option<ClassId>,
    array: u64,
    cell: u32,
    within: S::Id,
) -> Result<Cond<Slot, S>, SpaceFault>
    requires heap { IsHeap (S.sets space.old) heap.now }
    requires array { array < length heap.now.objects }
    requires known { IsKnown (S.sets space.old) within }
    requires inside { IsInside (S.sets space.old) within (object_in heap.now array).presence }
    ensures extends { Extends (S.sets space.old) (S.sets space.new) }
    ensures ok { IfOk result (IsElement program.now component (S.sets space.old) (S.sets space.new) heap.now array cell within) }
{
    let value = heap.read_cell(space, array, cell, within)?;
    let Some(component) = component else {
        return Ok(value);
    };
    let fitting = where_fitting(program, space, heap, component, &value)?;
    let part = value.restrict(space, fitting)?;
    Ok(part)
}

/// Puts so many elements of an array from a place on into a row that has none, inside its scope: each there where it and all before it
/// fit in an array of such components. Gives the configurations in which all of them fit.
fn put_fitting<S: Space>(
    program: &Program,
    space: &mut S,
    heap: &Heap<S>,
    component: Option<ClassId>,
    array: u64,
    from: u32,
    count: u32,
    row: &mut Row<Slot, S>,
) -> Result<S::Id, SpaceFault>
    requires heap { IsHeap (S.sets space.old) heap.now }
    requires array { array < length heap.now.objects }
    requires enough { from + count ≤ length (object_in heap.now array).cells }
    requires few { from + count < 2 ^ 32 }
    requires known { IsKnown (S.sets space.old) row.old.scope }
    requires inside { IsInside (S.sets space.old) row.old.scope (object_in heap.now array).presence }
    requires none { row.old.conds ≡ [] }
    ensures extends { Extends (S.sets space.old) (S.sets space.new) }
    ensures scope { IfOk result (λ _. row.new.scope ≡ row.old.scope) }
    ensures ok { IfOk result (AreElements program.now component (S.sets space.old) (S.sets space.new) heap.now array from count row.old.scope row.new.conds) }
{
    let mut fitting = row.scope();
    for i in 0..count {
        let part = element(program, space, heap, component, array, from + i, fitting)?;
        fitting = part.scope();
        row.push(part)?;
    }
    Ok(fitting)
}

/// Writes the values of a row to the cells of an array from a place on, each in its scope, which is inside that of the row. After want
/// of memory the heap is given up.
fn write_row<S: Space>(
    space: &mut S,
    heap: &mut Heap<S>,
    array: u64,
    to: u32,
    row: &Row<Slot, S>,
) -> Result<(), SpaceFault>
    requires heap { IsHeap (S.sets space.old) heap.old }
    requires few { to + length row.now.conds < 2 ^ 32 }
    requires known { IsKnown (S.sets space.old) row.now.scope }
    requires somewhere { IsSomewhere (S.sets space.old) row.now.scope }
    requires object { (c : List Bool) → (S.sets space.old).test row.now.scope c ≡ true → is_held (S.sets space.old) heap.old c (Slot.Ref array) ≡ true }
    requires parts { AreParts (S.sets space.old) heap.old row.now.scope row.now.conds }
    ensures extends { Extends (S.sets space.old) (S.sets space.new) }
    ensures ok { OnOk result (IsChangedIn (S.sets space.old) (S.sets space.new) heap.old heap.new ((S.sets space.old).test row.now.scope) (λ c. with_values (name_at (S.sets space.old) heap.old.objects c array) to (values_at (S.sets space.old) heap.old row.now.conds c))) }
{
    for i in 0..row.len() {
        heap.write_cell(space, array, to + i as u32, row.get(i))?;
    }
    Ok(())
}

/// Copies elements of an array to another one in a condition, up to the first that doesn't fit there. Gives the configurations in which
/// all of them fit. All are read before one is written, so an array may be copied to itself.
fn copy_fitting<S: Space>(
    alloc: Global,
    program: &Program,
    space: &mut S,
    heap: &mut Heap<S>,
    component: Option<ClassId>,
    array: u64,
    from: u32,
    other: u64,
    to: u32,
    count: u32,
    condition: S::Id,
) -> Result<S::Id, SpaceFault>
    requires heap { IsHeap (S.sets space.old) heap.old }
    requires enough { from + count ≤ length (object_in heap.old array).cells }
    requires few { from + count < 2 ^ 32 }
    requires room { to + count < 2 ^ 32 }
    requires known { IsKnown (S.sets space.old) condition }
    requires somewhere { IsSomewhere (S.sets space.old) condition }
    requires held { IsHeldIn (S.sets space.old) heap.old condition (copies array from other to count) }
    ensures extends { Extends (S.sets space.old) (S.sets space.new) }
    ensures ok { IfOk result (AreCopied program.now component (S.sets space.old) (S.sets space.new) heap.old heap.new condition array from other to count) }
{
    let mut row = Row::new(alloc, condition);
    let fitting = put_fitting(
        program, space, heap, component, array, from, count, &mut row,
    )?;
    write_row(space, heap, other, to, &row)?;
    Ok(fitting)
}

/// What a copy comes to: it is done where all elements fit, and raises an exception elsewhere in the condition.
fn copy_answers<S: Space>(
    alloc: Global,
    program: &Program,
    space: &mut S,
    fitting: S::Id,
    condition: S::Id,
) -> Result<Cond<Answer, S>, SpaceFault>
    requires classes { HasClassNumbers program.now }
    requires known { IsKnown (S.sets space.old) condition }
    requires fitting { IsKnown (S.sets space.old) fitting }
    requires inside { IsInside (S.sets space.old) fitting condition }
    ensures extends { Extends (S.sets space.old) (S.sets space.new) }
    ensures cond { IfOk result (IsCond answer_cmp (S.sets space.new)) }
    ensures scope { IfOk result (λ r. r.scope ≡ condition) }
    ensures at { IfOk result (λ r. (c : List Bool) → (S.sets space.old).test condition c ≡ true → answer_at (S.sets space.new) r c ≡ (if (S.sets space.old).test fitting c then Answer.Pass else Answer.Raise (as_class (core_class program.now "java/lang/ArrayStoreException")) None)) }
{
    let passes = Cond::one(alloc, space, Answer::Pass, fitting)?;
    let failing = space.minus(condition, fitting)?;
    let failed = raised(program, Exception::Store);
    let answers = with_answer(alloc, space, &passes, failed, failing)?;
    Ok(answers)
}

/// Elements of an array are copied to another one, or to itself, in a condition, in which both are there. Where an element doesn't fit
/// that is a reference, those before it are copied, and an exception is raised.
pub(crate) fn copied<S: Space>(
    alloc: Global,
    program: &Program,
    space: &mut S,
    heap: &mut Heap<S>,
    array: u64,
    from: u32,
    other: u64,
    to: u32,
    count: u32,
    condition: S::Id,
) -> Result<Cond<Answer, S>, SpaceFault>
    requires classes { HasClassNumbers program.now }
    requires heap { IsHeap (S.sets space.old) heap.old }
    requires known { IsKnown (S.sets space.old) condition }
    requires somewhere { IsSomewhere (S.sets space.old) condition }
    requires held { IsHeldIn (S.sets space.old) heap.old condition (copies array from other to count) }
    ensures extends { Extends (S.sets space.old) (S.sets space.new) }
    ensures done { IfOk result (IsDone program.now (S.sets space.old) (S.sets space.new) heap.old heap.new condition (deed_says (S.sets space.old) heap.old (copies array from other to count))) }
{
    let component = component_in(program, heap.class_at(Slot::Ref(other)));
    let fitting = copy_fitting(
        alloc, program, space, heap, component, array, from, other, to, count, condition,
    )?;
    let answers = copy_answers(alloc, program, space, fitting, condition)?;
    Ok(answers)
}
