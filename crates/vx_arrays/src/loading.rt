//! Loads of elements, and lengths (JVMS 6.5 iaload and its kin, arraylength).

ghost use Rattle.std.specs.Prelude.{◌≡◌, ◌<◌, ◌^◌, Bool, IfOk, List, length, min, pos, true};
ghost use Rattle.vx_arrays.specs.Elements.{loaded_place, measured, measured_top};
ghost use Rattle.vx_arrays.specs.Moving.{AreLoaded};
ghost use Rattle.vx_cells.specs.Places.{place_cmp};
ghost use Rattle.vx_cells.specs.Through.{ArePlacesHeld, place_at};
ghost use Rattle.vx_cond.specs.Cond.{IsCond};
ghost use Rattle.vx_families.specs.Attempts.{IsAttemptBy, IsGiven};
ghost use Rattle.vx_families.specs.Texts.{HasMoreTexts};
ghost use Rattle.vx_group.specs.Group.{path_of};
ghost use Rattle.vx_group_states.specs.Answering.{answer_at, operands_at};
ghost use Rattle.vx_group_states.specs.Answers.{answer_cmp};
ghost use Rattle.vx_java.specs.Machine.{length_bound};
ghost use Rattle.vx_ready.specs.Running.{IsRunning};
ghost use Rattle.vx_space.specs.Sets.{Extends};

use crate::elements::places_under;
use std::alloc::Global;
use vx_cells::{Place, place_if, read_through, where_room};
use vx_cond::Cond;
use vx_group::Group;
use vx_group_states::{Answer, Site, carry_out, illegal};
use vx_heap::Heap;
use vx_java::parts::is_array;
use vx_java::{Element, Operation, core_class};
use vx_link::Program;
use vx_outcome::Outcomes;
use vx_references::arrays::width_of;
use vx_space::{Space, SpaceFault};
use vx_value::{ClassId, Slot};

/// The greatest length of an array.
const MOST_ELEMENTS: u32 = 1_048_576;

/// Where a load reads, at each configuration of a group that has two operands.
fn places_read<S: Space>(
    alloc: Global,
    site: &Site,
    space: &mut S,
    heap: &Heap<S>,
    group: &Group<S>,
    element: Element,
) -> Result<Cond<Place, S>, SpaceFault>
    requires running { IsRunning site.now (S.sets space.old) heap.now group.now }
    requires operands { 1 < length group.now.top.stack.conds }
    requires few { length group.now.top.stack.conds < 2 ^ 32 }
    ensures extends { Extends (S.sets space.old) (S.sets space.new) }
    ensures cond { IfOk result (IsCond place_cmp (S.sets space.new)) }
    ensures scope { IfOk result (λ r. r.scope ≡ path_of group.now) }
    ensures held { IfOk result (ArePlacesHeld (S.sets space.new) heap.now) }
    ensures at { IfOk result (λ r. (c : List Bool) → (S.sets space.old).test (path_of group.now) c ≡ true → place_at (S.sets space.new) r c ≡ loaded_place site.now heap.now element (operands_at (S.sets space.old) group.now.top.stack c)) }
{
    let places = places_under(site, space, heap, group, element, 0)?;
    let stack = &group.top_frame().stack;
    let room = site.code.max_stack;
    let rooms = where_room(alloc, space, stack, 2, width_of(element), room)?;
    let within = places.zip(space, &rooms, place_if)?;
    Ok(within)
}

/// What a load comes to, at each configuration of a group that has two operands.
fn loaded<S: Space>(
    alloc: Global,
    site: &Site,
    space: &mut S,
    heap: &mut Heap<S>,
    group: &Group<S>,
    element: Element,
) -> Result<Cond<Answer, S>, SpaceFault>
    requires running { IsRunning site.now (S.sets space.old) heap.old group.now }
    requires operands { 1 < length group.now.top.stack.conds }
    requires few { length group.now.top.stack.conds < 2 ^ 32 }
    ensures extends { Extends (S.sets space.old) (S.sets space.new) }
    ensures more { IfOk result (λ _. HasMoreTexts heap.old heap.new) }
    ensures ok { IfOk result (AreLoaded site.now element (S.sets space.old) (S.sets space.new) heap.new group.now) }
{
    let places = places_read(alloc, site, space, heap, group, element)?;
    let answers = read_through(alloc, site.program, space, heap, &places)?;
    Ok(answers)
}

/// iaload, laload, aaload, baload, caload and saload.
pub(crate) fn load_element<S: Space>(
    alloc: Global,
    site: &Site,
    space: &mut S,
    heap: &mut Heap<S>,
    element: Element,
    group: Group<S>,
) -> Result<Outcomes<S>, SpaceFault>
    requires { IsGiven site.now (Operation.LoadElement element) (S.sets space.old) heap.old group }
    ensures extends { Extends (S.sets space.old) (S.sets space.new) }
    ensures ok { IfOk result (λ r. IsAttemptBy site.now (Operation.LoadElement element) (S.sets space.old) (S.sets space.new) heap.old heap.new group r.items.items) }
{
    if group.top_frame().stack.len() < 2 {
        return illegal(alloc, site.program, &group);
    }
    let answers = loaded(alloc, site, space, heap, &group, element)?;
    carry_out(alloc, site, space, group, 2, &answers)
}

/// A length as a value; no array is longer than the bound.
fn length_value(length: u32) -> i32
    ensures { result ≡ pos (min length length_bound) }
{
    length.min(MOST_ELEMENTS) as i32
}

fn measured<S: Space>(
    program: &Program,
    heap: &Heap<S>,
    null: ClassId,
    array: Slot,
    fits: bool,
) -> Answer
    ensures { result ≡ measured program.now heap.now null array fits }
{
    if !fits {
        return Answer::Illegal;
    }
    match array {
        Slot::Null => Answer::Raise(null, None),
        Slot::Ref(reference) => match heap.class_at(array) {
            Some(class) if is_array(program, class) => {
                Answer::Give(Slot::Int(length_value(heap.length_of(reference))))
            }
            _ => Answer::Illegal,
        },
        _ => Answer::Illegal,
    }
}

/// The length of the array on top, at each configuration of a group that has an operand.
fn lengths_at<S: Space>(
    alloc: Global,
    site: &Site,
    space: &mut S,
    heap: &Heap<S>,
    group: &Group<S>,
) -> Result<Cond<Answer, S>, SpaceFault>
    requires running { IsRunning site.now (S.sets space.old) heap.now group.now }
    requires operand { 0 < length group.now.top.stack.conds }
    requires few { length group.now.top.stack.conds < 2 ^ 32 }
    ensures extends { Extends (S.sets space.old) (S.sets space.new) }
    ensures cond { IfOk result (IsCond answer_cmp (S.sets space.new)) }
    ensures scope { IfOk result (λ r. r.scope ≡ path_of group.now) }
    ensures at { IfOk result (λ r. (c : List Bool) → (S.sets space.old).test (path_of group.now) c ≡ true → answer_at (S.sets space.new) r c ≡ measured_top site.now heap.now (operands_at (S.sets space.old) group.now.top.stack c)) }
{
    let stack = &group.top_frame().stack;
    let rooms = where_room(alloc, space, stack, 1, 1, site.code.max_stack)?;
    let program = site.program;
    let null = core_class(program, b"java/lang/NullPointerException");
    let answer = |array: Slot, fits: bool| -> Answer
        ensures { result ≡ measured program.entry.now heap.entry.now null array fits }
    { measured(program, heap, null, array, fits) };
    let array = stack.get(stack.len() - 1);
    let answers = array.zip(space, &rooms, answer)?;
    Ok(answers)
}

/// arraylength.
pub(crate) fn array_length<S: Space>(
    alloc: Global,
    site: &Site,
    space: &mut S,
    heap: &Heap<S>,
    group: Group<S>,
) -> Result<Outcomes<S>, SpaceFault>
    requires { IsGiven site.now Operation.Length (S.sets space.old) heap.now group }
    ensures extends { Extends (S.sets space.old) (S.sets space.new) }
    ensures ok { IfOk result (λ r. IsAttemptBy site.now Operation.Length (S.sets space.old) (S.sets space.new) heap.now heap.now group r.items.items) }
{
    if group.top_frame().stack.len() == 0 {
        return illegal(alloc, site.program, &group);
    }
    let answers = lengths_at(alloc, site, space, heap, &group)?;
    carry_out(alloc, site, space, group, 1, &answers)
}
