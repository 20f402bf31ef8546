//! Runs that end since no frame takes what they throw.

ghost use Rattle.std.specs.Prelude.{◌≡◌, IfOk, true};
ghost use Rattle.std.specs.List.{list_all};
ghost use Rattle.std.specs.Ordering.{nat_cmp};
ghost use Rattle.vx_cond.specs.Leaves.{AreLeaves};
ghost use Rattle.vx_group.specs.Group.{IsGroup, path_of};
ghost use Rattle.vx_group_states.specs.Sites.{Cover, GivesAt};
ghost use Rattle.vx_group_states.specs.Stands.{IsThrown};
ghost use Rattle.vx_heap.specs.Heap.{HeapView, IsHeap};
ghost use Rattle.vx_link.specs.ClassNames.{class_text};
ghost use Rattle.vx_java.specs.Machine.{Ended as EndedOf};
ghost use Rattle.vx_space.specs.Sets.{Extends};
ghost use Rattle.vx_standing.specs.Attempted.{is_placed};
ghost use Rattle.vx_value.specs.declared.end.End.TheVariants.{Uncaught};
ghost use Rattle.vx_throw.specs.Flights.{class_number, uncaught_from};
ghost use Rattle.vx_throw.specs.Landings.{is_class_number, number_by};

use crate::handling::Flight;
use std::alloc::{AllocError, Global};
use vx_cond::Leaf;
use vx_group::Group;
use vx_heap::Heap;
use vx_link::Program;
use vx_outcome::{Outcome, Outcomes};
use vx_space::{Space, SpaceFault};
use vx_spelling::class_text;
use vx_value::{ClassId, End, Slot};

/// The number of the class of an object.
fn class_number<S: Space>(heap: &Heap<S>, object: Slot) -> u64
    ensures number { result ≡ class_number heap.now object }
    ensures short { is_class_number result ≡ true }
{
    match heap.class_at(object) {
        Some(class) => u64::from(class.0),
        None => 0,
    }
}

/// The end of runs whose exception of a class no frame takes.
pub(crate) fn uncaught(alloc: Global, program: &Program, class: ClassId) -> Result<End, AllocError>
    ensures { IfOk result (λ end. end ≡ Uncaught (class_text program.now class.0)) }
{
    let text = class_text(alloc, program, class)?;
    Ok(End::Uncaught(text))
}

/// One end for each class.
fn ends<S: Space>(
    alloc: Global,
    program: &Program,
    space: &S,
    group: &Group<S>,
    classes: &[Leaf<u64, S>],
) -> Result<Outcomes<S>, AllocError>
    requires leaves { AreLeaves nat_cmp (S.sets space.now) classes.now }
    requires cover { Cover (S.sets space.now) (path_of group.now) classes.now }
    requires short { list_all (λ leaf. is_class_number leaf.value) classes.now ≡ true }
    ensures gives { IfOk result (λ r. (heap : HeapView S S.Id) → GivesAt program.now (λ _ c _. EndedOf (Uncaught (class_text program.now (number_by (S.sets space.now) classes.now c)))) (S.sets space.now) (S.sets space.now) group.now r.items.items heap) }
    ensures placed { IfOk result (λ r. list_all is_placed r.items.items ≡ true) }
{
    let mut outcomes = Outcomes::new(alloc);
    for leaf in classes {
        let end = uncaught(alloc, program, ClassId(leaf.value as u32))?;
        outcomes.push(Outcome::Ended {
            condition: leaf.condition,
            end,
        })?;
    }
    Ok(outcomes)
}

/// All runs end, by the classes of the objects.
pub(crate) fn end_all<S: Space>(
    alloc: Global,
    program: &Program,
    space: &mut S,
    heap: &Heap<S>,
    flight: &Flight<S>,
) -> Result<Outcomes<S>, SpaceFault>
    requires heap { IsHeap (S.sets space.old) heap.now }
    requires group { IsGroup (S.sets space.old) flight.now.group }
    requires thrown { IsThrown (S.sets space.old) heap.now flight.now.group flight.now.objects }
    ensures extends { Extends (S.sets space.old) (S.sets space.new) }
    ensures gives { IfOk result (λ r. GivesAt program.now (uncaught_from program.now (S.sets space.old) flight.now.objects) (S.sets space.old) (S.sets space.new) flight.now.group r.items.items heap.now) }
    ensures placed { IfOk result (λ r. list_all is_placed r.items.items ≡ true) }
{
    let class = |object: Slot| -> u64
        ensures number { result ≡ class_number heap.entry.now object }
        ensures short { is_class_number result ≡ true }
    { class_number(heap, object) };
    let classes = flight.objects.map(space, class)?;
    let outcomes = ends(alloc, program, space, &flight.group, classes.leaves())?;
    Ok(outcomes)
}
