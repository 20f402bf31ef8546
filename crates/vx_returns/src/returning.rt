//! Returns for all configurations of a group at once.

ghost use Rattle.std.specs.Prelude.{◌≡◌, ◌&&◌, ◌<◌, None, Some, IfOk, OnOk, length, true};
ghost use Rattle.vx_cond.specs.Cond.{IsInside};
ghost use Rattle.vx_families.specs.Attempts.{AttemptsIn, IsAttemptIn, IsGiven};
ghost use Rattle.vx_families.specs.Bounds.{IsBounded};
ghost use Rattle.vx_families.specs.Sorts.{slot_is_of, top_of};
ghost use Rattle.vx_frames.specs.Giving.{GivesIn};
ghost use Rattle.vx_group.specs.Group.{IsGroup, IsGroupIn, path_of};
ghost use Rattle.vx_group_states.specs.Answering.{operands_at};
ghost use Rattle.vx_group_states.specs.Sites.{here};
ghost use Rattle.vx_group_states.specs.Stands.{StandsIn};
ghost use Rattle.vx_families.specs.Changing.{IsChangedIn};
ghost use Rattle.vx_heap.specs.Heap.{HeapView, IsHeap, IsHeapFor};
ghost use Rattle.vx_java.specs.Returns.{return_value, values_returned};
ghost use Rattle.vx_space.specs.Sets.{Extends, IsKnown, IsSet};
ghost use Rattle.vx_returns.specs.Handing.{IsReturning, done_by, has_initialised, is_return, left_where};

use crate::leaving::leave;
use crate::sorts::agrees;
use std::alloc::Global;
use vx_families::{slot_is_of, top_operand};
use vx_group::{Callers, Group};
use vx_group_states::{Site, illegal};
use vx_heap::Heap;
use vx_java::parts::{class_of_method, descriptor_of_method};
use vx_java::{Operation, Sort};
use vx_link::Program;
use vx_outcome::Outcomes;
use vx_ready::{Mark, ended_part, mark_one, where_yes};
use vx_references::signature;
use vx_space::{Space, SpaceFault};
use vx_value::{InitState, Kind, Slot};

/// Whether the frame on top is an initialisation that another frame waits for.
fn has_initialised<S: Space>(group: &Group<S>) -> bool
    ensures { result ≡ has_initialised group.now }
{
    !matches!(group.top_frame().kind, Kind::Call) && group.depth() > 1
}

/// Marks the class that the frame on top has initialised, inside a path (JVMS 5.5).
fn mark_initialised<S: Space>(
    alloc: Global,
    program: &Program,
    space: &mut S,
    heap: &mut Heap<S>,
    group: &Group<S>,
    path: S::Id,
) -> Result<(), SpaceFault>
    requires heap { IsHeap (S.sets space.old) heap.old }
    requires for_program { IsHeapFor program.now heap.old }
    requires known { IsKnown (S.sets space.old) path }
    requires inside { IsInside (S.sets space.old) path heap.old.allowed }
    ensures extends { Extends (S.sets space.old) (S.sets space.new) }
    ensures ok { OnOk result (IsChangedIn (S.sets space.old) (S.sets space.new) heap.old heap.new ((S.sets space.old).test path) (λ _. done_by program.now group.now)) }
{
    if !has_initialised(group) {
        return Ok(());
    }
    let done = Mark {
        class: class_of_method(program, group.top_frame().method),
        condition: path,
    };
    mark_one(alloc, program, space, heap, &done, InitState::Done)
}

/// The configurations of a group, which has an operand, in which the operand on top is of a sort.
fn where_of_sort<S: Space>(space: &mut S, group: &Group<S>, sort: Sort) -> Result<S::Id, SpaceFault>
    requires group { IsGroup (S.sets space.old) group.now }
    requires operand { 0 < length group.now.top.stack.conds }
    ensures extends { Extends (S.sets space.old) (S.sets space.new) }
    ensures set { IfOk result (λ r. IsSet (S.sets space.new) r (λ c. (S.sets space.old).test (path_of group.now) c && slot_is_of sort (top_of (operands_at (S.sets space.old) group.now.top.stack c)))) }
{
    let is_of = |slot: Slot| -> bool
        ensures { result ≡ slot_is_of sort slot }
    { slot_is_of(sort, slot) };
    let answers = top_operand(group).map(space, is_of)?;
    Ok(where_yes(space, &answers))
}

/// The parts of a group by whether the value is of the sort: where it is the frame is left, and elsewhere the return breaks a rule.
fn leave_where<S: Space>(
    alloc: Global,
    site: &Site,
    space: &mut S,
    callers: &mut Callers<S>,
    group: Group<S>,
    fits: S::Id,
) -> Result<Outcomes<S>, SpaceFault>
    requires bounded { IsBounded site.now.program.now }
    requires group { IsGroupIn (S.sets space.old) callers.old group }
    requires operand { 0 < length group.top.stack.conds }
    requires known { IsKnown (S.sets space.old) fits }
    ensures extends { Extends (S.sets space.old) (S.sets space.new) }
    ensures callers { callers.new ≡ callers.old }
    ensures gives { IfOk result (λ r. (heap : HeapView S S.Id) → GivesIn site.now.program.now (λ _ c. left_where site.now true ((S.sets space.old).test fits c)) (S.sets space.old) (S.sets space.new) callers.old callers.new group r.items.items heap) }
{
    let (leaving, breaking) = group.split(space, fits)?;
    let ended = ended_part(alloc, site, space, breaking)?;
    let mut outcomes = leave(alloc, site, space, callers, leaving, true)?;
    outcomes.append(ended)?;
    Ok(outcomes)
}

/// A return of a value of a sort.
fn return_value<S: Space>(
    alloc: Global,
    site: &Site,
    space: &mut S,
    heap: &mut Heap<S>,
    callers: &mut Callers<S>,
    group: Group<S>,
    sort: Sort,
) -> Result<Outcomes<S>, SpaceFault>
    requires returning { IsReturning site.now (S.sets space.old) heap.old callers.old group }
    ensures extends { Extends (S.sets space.old) (S.sets space.new) }
    ensures callers { callers.new ≡ callers.old }
    ensures ok { IfOk result (λ r. AttemptsIn site.now (λ s. return_value (here site.now s) (values_returned (Some sort) s.top.operands)) (S.sets space.old) (S.sets space.new) heap.old heap.new callers.old callers.new group r.items.items) }
{
    if group.top_frame().stack.len() == 0 {
        return illegal(alloc, site.program, &group);
    }
    let fits = where_of_sort(space, &group, sort)?;
    mark_initialised(alloc, site.program, space, heap, &group, fits)?;
    leave_where(alloc, site, space, callers, group, fits)
}

/// A return of no value.
fn return_nothing<S: Space>(
    alloc: Global,
    site: &Site,
    space: &mut S,
    heap: &mut Heap<S>,
    callers: &mut Callers<S>,
    group: Group<S>,
) -> Result<Outcomes<S>, SpaceFault>
    requires returning { IsReturning site.now (S.sets space.old) heap.old callers.old group }
    ensures extends { Extends (S.sets space.old) (S.sets space.new) }
    ensures callers { callers.new ≡ callers.old }
    ensures ok { IfOk result (λ r. AttemptsIn site.now (λ s. return_value (here site.now s) (values_returned None s.top.operands)) (S.sets space.old) (S.sets space.new) heap.old heap.new callers.old callers.new group r.items.items) }
{
    mark_initialised(alloc, site.program, space, heap, &group, group.path())?;
    leave(alloc, site, space, callers, group, false)
}

/// One attempt of a group by a return (JVMS 2.6.4, 5.5). The sort of the value has to agree with the method's descriptor, and the value
/// to be of the sort; then the frame is left. A call's caller moves past the call and gets the value, if that fits on its operands. An
/// initialisation marks its class, and the frame below stays where it stands. After a refusal heap and group are given up.
pub fn attempt<S: Space>(
    alloc: Global,
    site: &Site,
    space: &mut S,
    heap: &mut Heap<S>,
    callers: &mut Callers<S>,
    operation: Operation,
    group: Group<S>,
) -> Result<Outcomes<S>, SpaceFault>
    requires given { IsGiven site.now operation (S.sets space.old) heap.old group }
    requires stands { StandsIn site.now.program.now (S.sets space.old) heap.old callers.old group }
    requires family { is_return operation ≡ true }
    ensures extends { Extends (S.sets space.old) (S.sets space.new) }
    ensures callers { callers.new ≡ callers.old }
    ensures ok { IfOk result (λ r. IsAttemptIn site.now operation (S.sets space.old) (S.sets space.new) heap.old heap.new callers.old callers.new group r.items.items) }
{
    let Operation::Return(sort) = operation else {
        unreachable!()
    };
    let method = group.top_frame().method;
    let declared = signature(alloc, descriptor_of_method(site.program, method))?;
    if !agrees(sort, declared.result) {
        return illegal(alloc, site.program, &group);
    }
    match sort {
        None => return_nothing(alloc, site, space, heap, callers, group),
        Some(sort) => return_value(alloc, site, space, heap, callers, group, sort),
    }
}
