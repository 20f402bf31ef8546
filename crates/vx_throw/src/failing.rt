//! Frames that what is thrown leaves, and initialisations that fail so (JVMS 5.5).

ghost use Rattle.std.specs.Prelude.{◌≡◌, ◌≢◌, ◌∷◌, [], IfOk, OnOk, not};
ghost use Rattle.vx_cond.specs.Cond.{IsCond, IsInside};
ghost use Rattle.vx_group_states.specs.Sites.{IsSomewhere};
ghost use Rattle.vx_heap.specs.Changing.{IsChangedIn};
ghost use Rattle.vx_heap.specs.Heap.{IsHeap, IsHeapFor};
ghost use Rattle.vx_java.specs.Ids.{HasClassNumbers};
ghost use Rattle.vx_link.specs.Parts.{method_at};
ghost use Rattle.vx_ready.specs.Initialising.{with_state};
ghost use Rattle.vx_space.specs.Sets.{Extends, IsKnown, IsSet};
ghost use Rattle.vx_value.specs.Slot.{slot_cmp};
ghost use Rattle.vx_value.specs.declared.key.Kind.TheVariants.{Call};
ghost use Rattle.vx_value.specs.declared.slot.InitState.TheVariants.{Failed};
ghost use Rattle.vx_throw.specs.Flights.{IsFlight, thrown_at};
ghost use Rattle.vx_throw.specs.Leaving.{AreWrapped, HasLeft, MayWrap, is_error_at, is_other_in, wrapper_of};
ghost use Rattle.vx_throw.specs.Making.{IsMadeIn};

use crate::handling::Flight;
use crate::making::throwable;
use std::alloc::Global;
use vx_cond::Cond;
use vx_heap::Heap;
use vx_java::parts::class_of_method;
use vx_java::{assignable, core_class};
use vx_link::Program;
use vx_ready::{Mark, mark_one, where_yes};
use vx_space::{Space, SpaceFault};
use vx_value::{ClassId, InitState, Kind, MethodId, Slot};

/// Whether what a slot names is no Error.
fn is_other<S: Space>(program: &Program, heap: &Heap<S>, error: ClassId, object: Slot) -> bool
    ensures { result ≡ not (is_error_at program.now heap.now error.0 object) }
{
    match heap.class_at(object) {
        Some(class) => !assignable(program, class, error),
        None => true,
    }
}

/// The configurations in which what is thrown is no Error.
fn where_others<S: Space>(
    program: &Program,
    space: &mut S,
    heap: &Heap<S>,
    objects: &Cond<Slot, S>,
) -> Result<S::Id, SpaceFault>
    requires classes { HasClassNumbers program.now }
    requires objects { IsCond slot_cmp (S.sets space.old) objects.now }
    ensures extends { Extends (S.sets space.old) (S.sets space.new) }
    ensures set { IfOk result (λ r. IsSet (S.sets space.new) r (is_other_in program.now (S.sets space.old) heap.now objects.now)) }
{
    let error = core_class(program, b"java/lang/Error");
    let is_other = |object: Slot| -> bool
        ensures { result ≡ not (is_error_at program.entry.now heap.entry.now error.0 object) }
    { is_other(program, heap, error, object) };
    let answers = objects.map(space, is_other)?;
    Ok(where_yes(space, &answers))
}

/// Makes the exception whose cause is what is thrown in a path, in which there is a configuration at least.
fn wrapper<S: Space>(
    alloc: Global,
    program: &Program,
    space: &mut S,
    heap: &mut Heap<S>,
    objects: &Cond<Slot, S>,
    path: S::Id,
) -> Result<u64, SpaceFault>
    requires may { MayWrap program.now (S.sets space.old) heap.old objects.now }
    requires known { IsKnown (S.sets space.old) path }
    requires somewhere { IsSomewhere (S.sets space.old) path }
    requires inside { IsInside (S.sets space.old) path objects.now.scope }
    ensures extends { Extends (S.sets space.old) (S.sets space.new) }
    ensures made { IfOk result (IsMadeIn (S.sets space.old) (S.sets space.new) heap.old path (λ c. wrapper_of program.now (thrown_at (S.sets space.old) heap.old objects.now c)) heap.new) }
{
    let cause = objects.restrict(space, path)?;
    let class = core_class(program, b"java/lang/ExceptionInInitializerError");
    throwable(alloc, program, space, heap, class, Slot::Null, &cause, path)
}

/// What is thrown where it is wrapped in a path, in which there is a configuration at least.
fn wrapped_inside<S: Space>(
    alloc: Global,
    program: &Program,
    space: &mut S,
    heap: &mut Heap<S>,
    objects: &Cond<Slot, S>,
    path: S::Id,
) -> Result<Cond<Slot, S>, SpaceFault>
    requires may { MayWrap program.now (S.sets space.old) heap.old objects.now }
    requires others { IsSet (S.sets space.old) path (is_other_in program.now (S.sets space.old) heap.old objects.now) }
    requires somewhere { IsSomewhere (S.sets space.old) path }
    ensures extends { Extends (S.sets space.old) (S.sets space.new) }
    ensures wrapped { IfOk result (AreWrapped program.now (S.sets space.old) (S.sets space.new) heap.old heap.new objects.now) }
{
    let object = wrapper(alloc, program, space, heap, objects, path)?;
    let thrown = Cond::one(alloc, space, Slot::Ref(object), path)?;
    objects.overwrite(space, &thrown)
}

/// What is thrown out of an initialisation: an Error stays, and what is no Error is the cause of one new exception.
fn wrapped<S: Space>(
    alloc: Global,
    program: &Program,
    space: &mut S,
    heap: &mut Heap<S>,
    objects: Cond<Slot, S>,
) -> Result<Cond<Slot, S>, SpaceFault>
    requires { MayWrap program.now (S.sets space.old) heap.old objects }
    ensures extends { Extends (S.sets space.old) (S.sets space.new) }
    ensures wrapped { IfOk result (AreWrapped program.now (S.sets space.old) (S.sets space.new) heap.old heap.new objects) }
{
    let others = where_others(program, space, heap, &objects)?;
    if space.is_never(others) {
        return Ok(objects);
    }
    wrapped_inside(alloc, program, space, heap, &objects, others)
}

/// The initialisation of the class of a method has failed in a path.
fn mark_failed<S: Space>(
    alloc: Global,
    program: &Program,
    space: &mut S,
    heap: &mut Heap<S>,
    method: MethodId,
    path: S::Id,
) -> Result<(), SpaceFault>
    requires heap { IsHeap (S.sets space.old) heap.old }
    requires program { IsHeapFor program.now heap.old }
    requires known { IsKnown (S.sets space.old) path }
    requires inside { IsInside (S.sets space.old) path heap.old.allowed }
    ensures extends { Extends (S.sets space.old) (S.sets space.new) }
    ensures ok { OnOk result (IsChangedIn (S.sets space.old) (S.sets space.new) heap.old heap.new ((S.sets space.old).test path) (λ _. with_state Failed ((method_at program.now method.0).class.0 ∷ []))) }
{
    let failed = Mark {
        class: class_of_method(program, method),
        condition: path,
    };
    mark_one(alloc, program, space, heap, &failed, InitState::Failed)
}

/// What is thrown leaves an initialisation, which has failed.
fn fail<S: Space>(
    alloc: Global,
    program: &Program,
    space: &mut S,
    heap: &mut Heap<S>,
    flight: Flight<S>,
) -> Result<Flight<S>, SpaceFault>
    requires flight { (tree : _) × IsFlight program.now (S.sets space.old) heap.old tree flight }
    requires kind { flight.group.top.kind ≢ Call }
    ensures extends { Extends (S.sets space.old) (S.sets space.new) }
    ensures left { IfOk result (HasLeft program.now (S.sets space.old) (S.sets space.new) heap.old heap.new flight) }
{
    let Flight { group, objects } = flight;
    let method = group.top_frame().method;
    mark_failed(alloc, program, space, heap, method, group.path())?;
    let objects = wrapped(alloc, program, space, heap, objects)?;
    Ok(Flight { group, objects })
}

/// What is thrown leaves the frame on top, which doesn't take it: the class of an initialisation has failed there, and what is no Error
/// becomes the cause of a new exception (JVMS 5.5). A call's frame changes nothing. After a refusal the heap is given up.
pub(crate) fn leave<S: Space>(
    alloc: Global,
    program: &Program,
    space: &mut S,
    heap: &mut Heap<S>,
    flight: Flight<S>,
) -> Result<Flight<S>, SpaceFault>
    requires { (tree : _) × IsFlight program.now (S.sets space.old) heap.old tree flight }
    ensures extends { Extends (S.sets space.old) (S.sets space.new) }
    ensures left { IfOk result (HasLeft program.now (S.sets space.old) (S.sets space.new) heap.old heap.new flight) }
{
    match flight.group.top_frame().kind {
        Kind::Call => Ok(flight),
        Kind::Init | Kind::Wait => fail(alloc, program, space, heap, flight),
    }
}
