//! checkcast and instanceof (JVMS 6.5).

ghost use Rattle.std.specs.Prelude.{◌≡◌, ◌&&◌, ◌<◌, IfOk, drop, length, true};
ghost use Rattle.vx_families.specs.Attempts.{AttemptsBy, IsAttemptBy, IsGiven};
ghost use Rattle.vx_families.specs.Sorts.{top_of};
ghost use Rattle.vx_group.specs.Group.{IsGroup, path_of};
ghost use Rattle.vx_group_states.specs.Answering.{answered, operands_at};
ghost use Rattle.vx_group_states.specs.Sites.{Gives, GivesAt, HasPast, here};
ghost use Rattle.vx_heap.specs.Heap.{HeapView};
ghost use Rattle.vx_java.specs.Machine.{unsupported as unsupported_of};
ghost use Rattle.vx_java.specs.Operation.{class_word};
ghost use Rattle.vx_link.specs.Names.{class_name};
ghost use Rattle.vx_objects.specs.Answers.{cast, cast_top, int_of, is_null, names_nothing, told, told_top, without_class};
ghost use Rattle.vx_space.specs.Sets.{Extends, IsKnown, IsSet, Sets};

use crate::instances::is_instance;
use std::alloc::Global;
use vx_cond::Cond;
use vx_families::{no_class, top_operand};
use vx_group::Group;
use vx_group_states::{Answer, Site, carry_out, illegal};
use vx_heap::Heap;
use vx_java::parts::class_of_method;
use vx_java::{Operation, core_class};
use vx_link::Program;
use vx_outcome::Outcomes;
use vx_ready::where_yes;
use vx_space::{Space, SpaceFault};
use vx_value::{ClassId, Slot};

fn cast<S: Space>(
    program: &Program,
    heap: &Heap<S>,
    wanted: ClassId,
    refusal: ClassId,
    slot: Slot,
) -> Answer
    ensures { result ≡ cast program.now heap.now wanted.0 refusal slot }
{
    match slot {
        Slot::Null => Answer::Give(Slot::Null),
        Slot::Ref(_) => {
            if is_instance(program, heap, wanted, slot) {
                return Answer::Give(slot);
            }
            Answer::Raise(refusal, None)
        }
        _ => Answer::Illegal,
    }
}

fn int_of(value: bool) -> Slot
    ensures { result ≡ int_of value }
{
    Slot::Int(i32::from(value))
}

fn told<S: Space>(program: &Program, heap: &Heap<S>, wanted: ClassId, slot: Slot) -> Answer
    ensures { result ≡ told program.now heap.now wanted.0 slot }
{
    match slot {
        Slot::Null => Answer::Push(int_of(false)),
        Slot::Ref(_) => Answer::Push(int_of(is_instance(program, heap, wanted, slot))),
        _ => Answer::Illegal,
    }
}

fn is_null(slot: Slot) -> bool
    ensures { result ≡ is_null slot }
{
    matches!(slot, Slot::Null)
}

/// The configurations of a group, which has an operand, in which null is on top.
fn where_null<S: Space>(space: &mut S, group: &Group<S>) -> Result<S::Id, SpaceFault>
    requires group { IsGroup (S.sets space.old) group.now }
    requires operand { 0 < length group.now.top.stack.conds }
    ensures extends { Extends (S.sets space.old) (S.sets space.new) }
    ensures set { IfOk result (λ r. IsSet (S.sets space.new) r (λ c. (S.sets space.old).test (path_of group.now) c && is_null (top_of (operands_at (S.sets space.old) group.now.top.stack c)))) }
{
    let nulls = top_operand(group).map(space, is_null)?;
    Ok(where_yes(space, &nulls))
}

/// Runs that all do what one answer says that names nothing.
fn answered_part<S: Space>(
    alloc: Global,
    site: &Site,
    space: &mut S,
    answer: Answer,
    group: Group<S>,
) -> Result<Outcomes<S>, SpaceFault>
    requires group { IsGroup (S.sets space.old) group }
    requires past { HasPast site.now group }
    requires operand { 0 < length group.top.stack.conds }
    requires names { names_nothing answer ≡ true }
    ensures extends { Extends (S.sets space.old) (S.sets space.new) }
    ensures gives { IfOk result (λ r. (heap : HeapView S S.Id) → GivesAt site.now.program.now (λ heap c s. answered (S.sets space.old) heap c (here site.now s) (drop 1 s.top.operands) answer) (S.sets space.old) (S.sets space.new) group r.items.items heap) }
{
    let answers = Cond::one(alloc, space, answer, group.path())?;
    carry_out(alloc, site, space, group, 1, &answers)
}

/// Runs that need a class that isn't there. No runs come to no outcome.
fn missing_part<S: Space>(
    alloc: Global,
    site: &Site,
    space: &S,
    index: u16,
    group: Group<S>,
) -> Result<Outcomes<S>, SpaceFault>
    requires { IsGroup (S.sets space.now) group }
    ensures { IfOk result (λ r. Gives site.now.program.now (λ s. unsupported_of (here site.now s) class_word (class_name (here site.now s).pool index)) (S.sets space.now) (S.sets space.now) group r.items.items) }
{
    if space.is_never(group.path()) {
        return Ok(Outcomes::new(alloc));
    }
    no_class(alloc, site, &group, index)
}

/// The class isn't there: runs inside the set of those with null on top do what is answered, and the others end. What comes of them is
/// told over each space that the set was told of.
fn null_or_missing<S: Space>(
    alloc: Global,
    site: &Site,
    space: &mut S,
    index: u16,
    answer: Answer,
    null: S::Id,
    group: Group<S>,
) -> Result<Outcomes<S>, SpaceFault>
    requires group { IsGroup (S.sets space.old) group }
    requires past { HasPast site.now group }
    requires known { IsKnown (S.sets space.old) null }
    requires operand { 0 < length group.top.stack.conds }
    requires names { names_nothing answer ≡ true }
    ensures extends { Extends (S.sets space.old) (S.sets space.new) }
    ensures gives { IfOk result (λ r. (sets : Sets S.Id) → Extends sets (S.sets space.old) → IsSet (S.sets space.old) null (λ c. sets.test (path_of group) c && is_null (top_of (operands_at sets group.top.stack c))) → (heap : HeapView S S.Id) → GivesAt site.now.program.now (λ heap c s. without_class (here site.now s) index (answered sets heap c (here site.now s) (drop 1 s.top.operands) answer) s.top.operands) sets (S.sets space.new) group r.items.items heap) }
{
    let (passing, others) = group.split(space, null)?;
    let missing = missing_part(alloc, site, space, index, others)?;
    let mut outcomes = answered_part(alloc, site, space, answer, passing)?;
    outcomes.append(missing)?;
    Ok(outcomes)
}

/// The class isn't there: runs with null on top do what is answered, and the others end.
fn without_class<S: Space>(
    alloc: Global,
    site: &Site,
    space: &mut S,
    index: u16,
    answer: Answer,
    group: Group<S>,
) -> Result<Outcomes<S>, SpaceFault>
    requires group { IsGroup (S.sets space.old) group }
    requires past { HasPast site.now group }
    requires names { names_nothing answer ≡ true }
    ensures extends { Extends (S.sets space.old) (S.sets space.new) }
    ensures gives { IfOk result (λ r. (heap : HeapView S S.Id) → GivesAt site.now.program.now (λ heap c s. without_class (here site.now s) index (answered (S.sets space.old) heap c (here site.now s) (drop 1 s.top.operands) answer) s.top.operands) (S.sets space.old) (S.sets space.new) group r.items.items heap) }
{
    if group.top_frame().stack.len() == 0 {
        return no_class(alloc, site, &group, index);
    }
    let null = where_null(space, &group)?;
    null_or_missing(alloc, site, space, index, answer, null, group)
}

/// checkcast of a class that is there: the stack stays as it is.
fn cast_top<S: Space>(
    alloc: Global,
    site: &Site,
    space: &mut S,
    heap: &Heap<S>,
    wanted: ClassId,
    group: Group<S>,
) -> Result<Outcomes<S>, SpaceFault>
    requires { (o : Operation) × IsGiven site.now o (S.sets space.old) heap.now group }
    ensures extends { Extends (S.sets space.old) (S.sets space.new) }
    ensures ok { IfOk result (λ r. AttemptsBy site.now (λ s. cast_top (here site.now s) wanted.0 s.top.operands) (S.sets space.old) (S.sets space.new) heap.now heap.now group r.items.items) }
{
    let program = site.program;
    if group.top_frame().stack.len() == 0 {
        return illegal(alloc, program, &group);
    }
    let refusal = core_class(program, b"java/lang/ClassCastException");
    let answer = |slot: Slot| -> Answer
        ensures { result ≡ cast program.entry.now heap.entry.now wanted.0 refusal slot }
    { cast(program, heap, wanted, refusal, slot) };
    let answers = top_operand(&group).map(space, answer)?;
    carry_out(alloc, site, space, group, 1, &answers)
}

/// checkcast. Null passes before the class is looked for.
pub(crate) fn check_cast<S: Space>(
    alloc: Global,
    site: &Site,
    space: &mut S,
    heap: &Heap<S>,
    index: u16,
    group: Group<S>,
) -> Result<Outcomes<S>, SpaceFault>
    requires { IsGiven site.now (Operation.CheckCast index) (S.sets space.old) heap.now group }
    ensures extends { Extends (S.sets space.old) (S.sets space.new) }
    ensures ok { IfOk result (λ r. IsAttemptBy site.now (Operation.CheckCast index) (S.sets space.old) (S.sets space.new) heap.now heap.now group r.items.items) }
{
    let class = class_of_method(site.program, group.top_frame().method);
    match heap.resolved(site.program, class, index) {
        Some(wanted) => cast_top(alloc, site, space, heap, wanted, group),
        None => {
            let answer = Answer::Give(Slot::Null);
            without_class(alloc, site, space, index, answer, group)
        }
    }
}

/// instanceof of a class that is there.
fn told_top<S: Space>(
    alloc: Global,
    site: &Site,
    space: &mut S,
    heap: &Heap<S>,
    wanted: ClassId,
    group: Group<S>,
) -> Result<Outcomes<S>, SpaceFault>
    requires { (o : Operation) × IsGiven site.now o (S.sets space.old) heap.now group }
    ensures extends { Extends (S.sets space.old) (S.sets space.new) }
    ensures ok { IfOk result (λ r. AttemptsBy site.now (λ s. told_top (here site.now s) wanted.0 s.top.operands) (S.sets space.old) (S.sets space.new) heap.now heap.now group r.items.items) }
{
    let program = site.program;
    if group.top_frame().stack.len() == 0 {
        return illegal(alloc, program, &group);
    }
    let answer = |slot: Slot| -> Answer
        ensures { result ≡ told program.entry.now heap.entry.now wanted.0 slot }
    { told(program, heap, wanted, slot) };
    let answers = top_operand(&group).map(space, answer)?;
    carry_out(alloc, site, space, group, 1, &answers)
}

/// instanceof. Null is 0 before the class is looked for.
pub(crate) fn instance_of<S: Space>(
    alloc: Global,
    site: &Site,
    space: &mut S,
    heap: &Heap<S>,
    index: u16,
    group: Group<S>,
) -> Result<Outcomes<S>, SpaceFault>
    requires { IsGiven site.now (Operation.InstanceOf index) (S.sets space.old) heap.now group }
    ensures extends { Extends (S.sets space.old) (S.sets space.new) }
    ensures ok { IfOk result (λ r. IsAttemptBy site.now (Operation.InstanceOf index) (S.sets space.old) (S.sets space.new) heap.now heap.now group r.items.items) }
{
    let class = class_of_method(site.program, group.top_frame().method);
    match heap.resolved(site.program, class, index) {
        Some(wanted) => told_top(alloc, site, space, heap, wanted, group),
        None => {
            let answer = Answer::Push(int_of(false));
            without_class(alloc, site, space, index, answer, group)
        }
    }
}
