//! Handlers that take what is thrown in the frame on top (JVMS 2.10).

ghost use Rattle.std.specs.Prelude.{◌≡◌, ◌&&◌, ◌++◌, ◌∷◌, ◌<◌, ◌^◌, [], Bool, IfOk, List, Some, is_none, is_some, not, true};
ghost use Rattle.std.specs.List.{list_all};
ghost use Rattle.vx_cond.specs.Cond.{IsCond, IsInside};
ghost use Rattle.vx_cond.specs.Leaves.{AreLeaves};
ghost use Rattle.vx_frame.specs.Frame.{part_of};
ghost use Rattle.vx_group.specs.Group.{IsGroup, IsPartOf, path_of};
ghost use Rattle.vx_group_states.specs.Sites.{GivesAt};
ghost use Rattle.vx_group_states.specs.Stands.{IsThrown};
ghost use Rattle.vx_families.specs.Bounds.{IsBounded};
ghost use Rattle.vx_heap.specs.Heap.{HeapView};
ghost use Rattle.vx_java.specs.Ids.{HasClassNumbers};
ghost use Rattle.vx_link.specs.declared.program.Program.{Program as PlainProgram};
ghost use Rattle.vx_space.specs.Sets.{Extends, IsKnown};
ghost use Rattle.vx_outcome.specs.declared.outcome.Outcome.{Outcome as OutcomeOf};
ghost use Rattle.vx_outcome.specs.declared.outcome.Outcome.TheVariants as shared;
ghost use Rattle.vx_value.specs.Slot.{slot_cmp};
ghost use Rattle.vx_throw.specs.Flights.{IsHandled, handler_at, handler_in, landing_from};
ghost use Rattle.vx_throw.specs.Landings.{AreLanded, AreObjectsHeld, handler_by, handler_cmp, is_short_handler, lands};

use std::alloc::{AllocError, Global};
use vx_cond::{Cond, Leaf, Row};
use vx_frame::Frame;
use vx_group::Group;
use vx_heap::Heap;
use vx_java::handler_for;
use vx_link::Program;
use vx_outcome::{Outcome, Outcomes};
use vx_space::{Space, SpaceFault};
use vx_value::{Kind, Slot};

/// Objects on their way down the frames of a group, in all its configurations.
#[derive(Drop)]
pub struct Flight<S: Space> {
    pub group: Group<S>,
    pub objects: Cond<Slot, S>,
}

/// The position of the handler that takes an object in a frame, by the class of the object. A frame that waits handles nothing.
fn handler_of<S: Space>(
    program: &Program,
    heap: &Heap<S>,
    frame: &Frame<S>,
    object: Slot,
) -> Option<u64>
    requires { HasClassNumbers program.now }
    ensures handler { result ≡ handler_at program.now heap.now (part_of frame.now) object }
    ensures short { is_short_handler result ≡ true }
{
    if let Kind::Wait = frame.kind {
        return None;
    }
    let Some(class) = heap.class_at(object) else {
        return None;
    };
    match handler_for(program, frame.method, frame.position, class) {
        Some(handler) => Some(u64::from(handler)),
        None => None,
    }
}

/// The handlers that take the objects in the frame on top.
fn handlers<S: Space>(
    program: &Program,
    space: &mut S,
    heap: &Heap<S>,
    flight: &Flight<S>,
) -> Result<Cond<Option<u64>, S>, SpaceFault>
    requires classes { HasClassNumbers program.now }
    requires objects { IsCond slot_cmp (S.sets space.old) flight.now.objects }
    ensures extends { Extends (S.sets space.old) (S.sets space.new) }
    ensures cond { IfOk result (IsCond handler_cmp (S.sets space.new)) }
    ensures scope { IfOk result (λ r. r.scope ≡ flight.now.objects.scope) }
    ensures at { IfOk result (λ r. (c : List Bool) → (S.sets space.old).test flight.now.objects.scope c ≡ true → handler_by (S.sets space.new) r.leaves c ≡ handler_in program.now (S.sets space.old) heap.now flight.now c) }
    ensures short { IfOk result (λ r. list_all (λ leaf. is_short_handler leaf.value) r.leaves ≡ true) }
{
    let frame = flight.group.top_frame();
    let handler = |object: Slot| -> Option<u64>
        requires { HasClassNumbers program.now }
        ensures handler { result ≡ handler_at program.entry.now heap.entry.now (part_of frame.entry.now) object }
        ensures short { is_short_handler result ≡ true }
    { handler_of(program, heap, frame, object) };
    let handlers = flight.objects.map(space, handler)?;
    Ok(handlers)
}

/// An operand stack with one value.
fn stack_of<S: Space>(alloc: Global, value: Cond<Slot, S>) -> Result<Row<Slot, S>, AllocError>
    ensures { IfOk result (λ r. r ≡ record { scope = value.scope; conds = value ∷ [] }) }
{
    let mut stack = Row::new(alloc, value.scope());
    stack.push(value)?;
    Ok(stack)
}

/// The group at a handler in the frame on top, with the objects alone on the operands; the locals stay.
fn landed<S: Space>(
    alloc: Global,
    space: &mut S,
    group: Group<S>,
    objects: &Cond<Slot, S>,
    handler: u64,
) -> Result<Group<S>, SpaceFault>
    requires group { IsGroup (S.sets space.old) group }
    requires objects { IsCond slot_cmp (S.sets space.old) objects.now }
    requires inside { IsInside (S.sets space.old) (path_of group) objects.now.scope }
    requires handler { handler < 2 ^ 32 }
    ensures extends { Extends (S.sets space.old) (S.sets space.new) }
    ensures gives { IfOk result (λ r. (program : PlainProgram) (heap : HeapView S S.Id) → AreObjectsHeld (S.sets space.old) heap (path_of group) objects.now → GivesAt program (landing_from (S.sets space.old) objects.now (λ _. Some handler)) (S.sets space.old) (S.sets space.new) group (shared.Go r ∷ []) heap) }
{
    let object = objects.restrict(space, group.path())?;
    let stack = stack_of(alloc, object)?;
    let (below, mut frame) = group.take_top();
    frame.stack = stack;
    frame.position = handler as u32;
    Ok(below.put_top(frame))
}

/// The part of a group in which this handler takes the objects goes on there; the part that none takes is left.
fn land<S: Space>(
    alloc: Global,
    space: &mut S,
    group: Group<S>,
    objects: &Cond<Slot, S>,
    leaf: &Leaf<Option<u64>, S>,
    outcomes: &mut Outcomes<S>,
) -> Result<Group<S>, SpaceFault>
    requires group { IsGroup (S.sets space.old) group }
    requires objects { IsCond slot_cmp (S.sets space.old) objects.now }
    requires inside { IsInside (S.sets space.old) (path_of group) objects.now.scope }
    requires known { IsKnown (S.sets space.old) leaf.now.condition }
    requires handler { is_short_handler leaf.now.value ≡ true }
    ensures extends { Extends (S.sets space.old) (S.sets space.new) }
    ensures left { IfOk result (λ r. IsPartOf (S.sets space.old) (S.sets space.new) (λ c. (S.sets space.old).test (path_of group) c && not (lands (S.sets space.old) leaf.now c)) group r) }
    ensures landed { IfOk result (λ r. (more : List (OutcomeOf S S.Id)) × (outcomes.new.items.items ≡ outcomes.old.items.items ++ more) × AreLanded (S.sets space.old) (S.sets space.new) group objects.now (λ _. leaf.now.value) (λ c. (S.sets space.old).test (path_of group) c && lands (S.sets space.old) leaf.now c) more) }
{
    let Some(handler) = leaf.value else {
        return Ok(group);
    };
    let (part, others) = group.split(space, leaf.condition)?;
    let landed = landed(alloc, space, part, objects, handler)?;
    outcomes.push(Outcome::Go { group: landed })?;
    Ok(others)
}

/// The parts of a group by its handlers: the part that none takes, and the outcomes of the others.
fn land_all<S: Space>(
    alloc: Global,
    space: &mut S,
    group: Group<S>,
    objects: &Cond<Slot, S>,
    handlers: &[Leaf<Option<u64>, S>],
) -> Result<(Group<S>, Outcomes<S>), SpaceFault>
    requires group { IsGroup (S.sets space.old) group }
    requires objects { IsCond slot_cmp (S.sets space.old) objects.now }
    requires inside { IsInside (S.sets space.old) (path_of group) objects.now.scope }
    requires leaves { AreLeaves handler_cmp (S.sets space.old) handlers.now }
    requires short { list_all (λ leaf. is_short_handler leaf.value) handlers.now ≡ true }
    ensures extends { Extends (S.sets space.old) (S.sets space.new) }
    ensures left { IfOk result (λ r. IsPartOf (S.sets space.old) (S.sets space.new) (λ c. (S.sets space.old).test (path_of group) c && is_none (handler_by (S.sets space.old) handlers.now c)) group r.0) }
    ensures landed { IfOk result (λ r. AreLanded (S.sets space.old) (S.sets space.new) group objects.now (handler_by (S.sets space.old) handlers.now) (λ c. (S.sets space.old).test (path_of group) c && is_some (handler_by (S.sets space.old) handlers.now c)) r.1.items.items) }
{
    let mut outcomes = Outcomes::new(alloc);
    let mut rest = group;
    for leaf in handlers {
        rest = land(alloc, space, rest, objects, leaf, &mut outcomes)?;
    }
    Ok((rest, outcomes))
}

/// What the handlers of the frame on top take goes on there, and what none takes is left.
pub(crate) fn handle<S: Space>(
    alloc: Global,
    program: &Program,
    space: &mut S,
    heap: &Heap<S>,
    flight: Flight<S>,
) -> Result<(Flight<S>, Outcomes<S>), SpaceFault>
    requires bounded { IsBounded program.now }
    requires group { IsGroup (S.sets space.old) flight.group }
    requires thrown { IsThrown (S.sets space.old) heap.now flight.group flight.objects }
    ensures extends { Extends (S.sets space.old) (S.sets space.new) }
    ensures handled { IfOk result (λ r. IsHandled program.now (S.sets space.old) (S.sets space.new) heap.now flight r.0 r.1.items.items) }
{
    let handlers = handlers(program, space, heap, &flight)?;
    let Flight { group, objects } = flight;
    let (group, outcomes) = land_all(alloc, space, group, &objects, handlers.leaves())?;
    let objects = objects.restrict(space, group.path())?;
    Ok((Flight { group, objects }, outcomes))
}
