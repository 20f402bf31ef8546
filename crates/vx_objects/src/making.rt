//! new for all configurations of a group at once (JVMS 6.5, 5.5).

ghost use Rattle.std.specs.Prelude.{◌≡◌, ◌&&◌, ◌+◌, ◌<◌, ◌^◌, ◌∷◌, ◌||◌, Bool, IfOk, List, false, length, nat_le, true};
ghost use Rattle.vx_class.specs.Members.{ABSTRACT};
ghost use Rattle.vx_families.specs.Attempts.{AttemptsBy, IsAttemptBy, IsGiven};
ghost use Rattle.vx_group.specs.Group.{IsGroup, path_of};
ghost use Rattle.vx_group_states.specs.Answering.{operands_at};
ghost use Rattle.vx_group_states.specs.Sites.{GivesAt, HasPast, here};
ghost use Rattle.vx_group_states.specs.Widths.{slots_size};
ghost use Rattle.vx_heap.specs.Changing.{IsChangedIn, with_object};
ghost use Rattle.vx_heap.specs.Heap.{HeapView, IsHeap, is_held, value_of};
ghost use Rattle.vx_java.specs.FirstObjects.{new_object};
ghost use Rattle.vx_java.specs.Ids.{HasClassNumbers};
ghost use Rattle.vx_java.specs.Machine.{go};
ghost use Rattle.vx_java.specs.Objects.{new_of_class};
ghost use Rattle.vx_link.specs.Parts.{class_at, has, is_interface};
ghost use Rattle.vx_objects.specs.Made.{given_where_ready};
ghost use Rattle.vx_ready.specs.Running.{IsRunning};
ghost use Rattle.vx_space.specs.Sets.{Extends, IsKnown, IsSet};
ghost use Rattle.vx_value.specs.declared.slot.Slot.TheVariants.{Ref};

use std::alloc::Global;
use vx_cells::where_room;
use vx_cond::Cond;
use vx_families::{no_class, raise};
use vx_group::Group;
use vx_group_states::{Site, illegal};
use vx_heap::Heap;
use vx_java::Operation;
use vx_java::parts::{class_of_method, is_without_objects};
use vx_link::Program;
use vx_outcome::Outcomes;
use vx_ready::{Readiness, make_ready, stop_others, where_yes};
use vx_space::{Space, SpaceFault};
use vx_value::{ClassId, Slot};

/// The configurations of a group in which a reference has room on the operands.
fn where_fitting<S: Space>(
    alloc: Global,
    space: &mut S,
    group: &Group<S>,
    room: u16,
) -> Result<S::Id, SpaceFault>
    requires group { IsGroup (S.sets space.old) group.now }
    requires few { length group.now.top.stack.conds < 2 ^ 32 }
    ensures extends { Extends (S.sets space.old) (S.sets space.new) }
    ensures set { IfOk result (λ r. IsSet (S.sets space.new) r (λ c. (S.sets space.old).test (path_of group.now) c && nat_le (1 + slots_size (operands_at (S.sets space.old) group.now.top.stack c)) room)) }
{
    let rooms = where_room(alloc, space, &group.top_frame().stack, 0, 1, room)?;
    Ok(where_yes(space, &rooms))
}

/// Makes an object of a class in the configurations of a path, and none where there is no configuration. After want of memory the heap is
/// given up.
fn made_inside<S: Space>(
    alloc: Global,
    program: &Program,
    space: &S,
    heap: &mut Heap<S>,
    class: ClassId,
    path: S::Id,
) -> Result<u64, SpaceFault>
    requires heap { IsHeap (S.sets space.now) heap.old }
    requires known { IsKnown (S.sets space.now) path }
    ensures changed { IfOk result (λ _. IsChangedIn (S.sets space.now) (S.sets space.now) heap.old heap.new ((S.sets space.now).test path) (λ _. with_object (new_object program.now class.0))) }
    ensures number { IfOk result (λ reference. (c : List Bool) → (S.sets space.now).test path c ≡ true → reference ≡ length heap.old.objects) }
    ensures held { IfOk result (λ reference. (c : List Bool) → (S.sets space.now).test path c ≡ true → is_held (S.sets space.now) heap.new c (Ref reference) ≡ true) }
{
    if space.is_never(path) {
        return Ok(0);
    }
    heap.alloc_object(alloc, program, class, path)
}

/// Puts an object on the operands, and goes past the instruction. No runs come to no outcome.
fn pushed_part<S: Space>(
    alloc: Global,
    site: &Site,
    space: &S,
    group: Group<S>,
    reference: u64,
) -> Result<Outcomes<S>, SpaceFault>
    requires group { IsGroup (S.sets space.now) group }
    requires past { HasPast site.now group }
    requires few { length group.top.stack.conds + 1 < 2 ^ 32 }
    ensures { IfOk result (λ r. (heap : HeapView S S.Id) → ((c : List Bool) → (S.sets space.now).test (path_of group) c ≡ true → is_held (S.sets space.now) heap c (Ref reference) ≡ true) → GivesAt site.now.program.now (λ heap c s. go (here site.now s) (value_of (S.sets space.now) heap c (Ref reference) ∷ s.top.operands)) (S.sets space.now) (S.sets space.now) group r.items.items heap) }
{
    let path = group.path();
    if space.is_never(path) {
        return Ok(Outcomes::new(alloc));
    }
    let value = Cond::one(alloc, space, Slot::Ref(reference), path)?;
    let (below, mut frame) = group.take_top();
    frame.stack.push(value)?;
    frame.position += site.size;
    let outcomes = Outcomes::go(alloc, below.put_top(frame))?;
    Ok(outcomes)
}

/// The runs that proceed get an object on their operands, and what comes of the others goes by whether they need its class and whether
/// that has failed.
fn given_where_ready<S: Space>(
    alloc: Global,
    site: &Site,
    space: &mut S,
    class: ClassId,
    needs: S::Id,
    readiness: &Readiness<S>,
    reference: u64,
    group: Group<S>,
) -> Result<Outcomes<S>, SpaceFault>
    requires classes { HasClassNumbers site.now.program.now }
    requires group { IsGroup (S.sets space.old) group }
    requires past { HasPast site.now group }
    requires few { length group.top.stack.conds + 1 < 2 ^ 32 }
    requires needs { IsKnown (S.sets space.old) needs }
    requires proceeds { IsKnown (S.sets space.old) readiness.now.proceeds }
    requires fails { IsKnown (S.sets space.old) readiness.now.fails }
    ensures extends { Extends (S.sets space.old) (S.sets space.new) }
    ensures gives { IfOk result (λ r. (heap : HeapView S S.Id) → IsHeap (S.sets space.old) heap → ((c : List Bool) → (S.sets space.old).test readiness.now.proceeds c ≡ true → is_held (S.sets space.old) heap c (Ref reference) ≡ true) → GivesAt site.now.program.now (given_where_ready site.now class.0 (S.sets space.old) (S.sets space.new) needs readiness.now reference) (S.sets space.old) (S.sets space.new) group r.items.items heap) }
{
    let (going, mut outcomes) = stop_others(alloc, site, space, group, class, needs, readiness)?;
    let pushed = pushed_part(alloc, site, space, going, reference)?;
    outcomes.append(pushed)?;
    Ok(outcomes)
}

/// new of a class of which there are objects, in runs whose operands may have room.
fn new_fitting<S: Space>(
    alloc: Global,
    site: &Site,
    space: &mut S,
    heap: &mut Heap<S>,
    class: ClassId,
    group: Group<S>,
) -> Result<Outcomes<S>, SpaceFault>
    requires running { IsRunning site.now (S.sets space.old) heap.old group }
    requires few { length group.top.stack.conds < site.now.code.now.max_stack }
    requires objects { (has ABSTRACT (class_at site.now.program.now class.0).flags || is_interface site.now.program.now class.0) ≡ false }
    ensures extends { Extends (S.sets space.old) (S.sets space.new) }
    ensures ok { IfOk result (λ r. AttemptsBy site.now (λ s. new_of_class (here site.now s) class.0) (S.sets space.old) (S.sets space.new) heap.old heap.new group r.items.items) }
{
    let needs = where_fitting(alloc, space, &group, site.code.max_stack)?;
    let readiness = make_ready(alloc, site.program, space, heap, class, needs)?;
    let reference = made_inside(alloc, site.program, space, heap, class, readiness.proceeds)?;
    given_where_ready(
        alloc, site, space, class, needs, &readiness, reference, group,
    )
}

/// new of a class that is there. An operand takes a word at least, so where there are as many operands as the method's
/// greatest stack has words, no object has room.
fn new_of_class<S: Space>(
    alloc: Global,
    site: &Site,
    space: &mut S,
    heap: &mut Heap<S>,
    class: ClassId,
    group: Group<S>,
) -> Result<Outcomes<S>, SpaceFault>
    requires { IsRunning site.now (S.sets space.old) heap.old group }
    ensures extends { Extends (S.sets space.old) (S.sets space.new) }
    ensures ok { IfOk result (λ r. AttemptsBy site.now (λ s. new_of_class (here site.now s) class.0) (S.sets space.old) (S.sets space.new) heap.old heap.new group r.items.items) }
{
    let program = site.program;
    if is_without_objects(program, class) {
        let raised = raise(alloc, program, group, b"java/lang/InstantiationError")?;
        return Ok(raised);
    }
    if group.top_frame().stack.len() >= usize::from(site.code.max_stack) {
        return illegal(alloc, program, &group);
    }
    new_fitting(alloc, site, space, heap, class, group)
}

/// new.
pub(crate) fn new_instance<S: Space>(
    alloc: Global,
    site: &Site,
    space: &mut S,
    heap: &mut Heap<S>,
    index: u16,
    group: Group<S>,
) -> Result<Outcomes<S>, SpaceFault>
    requires { IsGiven site.now (Operation.New index) (S.sets space.old) heap.old group }
    ensures extends { Extends (S.sets space.old) (S.sets space.new) }
    ensures ok { IfOk result (λ r. IsAttemptBy site.now (Operation.New index) (S.sets space.old) (S.sets space.new) heap.old heap.new group r.items.items) }
{
    let class = class_of_method(site.program, group.top_frame().method);
    match heap.resolved(site.program, class, index) {
        Some(made) => new_of_class(alloc, site, space, heap, made, group),
        None => no_class(alloc, site, &group, index),
    }
}
