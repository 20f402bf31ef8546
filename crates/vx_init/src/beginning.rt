//! The beginning of an initialisation (JVMS 5.5).

ghost use Rattle.std.specs.Prelude.{◌≡◌, IfOk};
ghost use Rattle.vx_cond.specs.Leaves.{AreLeaves, value_at};
ghost use Rattle.vx_frames.specs.Giving.{AttemptsAt, GivesIn};
ghost use Rattle.vx_group.specs.Callers.{Keeps};
ghost use Rattle.vx_group.specs.Group.{IsGroupIn, path_of};
ghost use Rattle.vx_group_states.specs.Sites.{Cover, Gives};
ghost use Rattle.vx_heap.specs.Heap.{HeapView};
ghost use Rattle.vx_java.specs.Ids.{HasClassNumbers};
ghost use Rattle.vx_java.specs.Initialisation.{begin as begin_of};
ghost use Rattle.vx_java.specs.Machine.{unsupported_in};
ghost use Rattle.vx_java.specs.Operation.{class_word};
ghost use Rattle.vx_link.specs.Parts.{class_at};
ghost use Rattle.vx_space.specs.Sets.{Extends, Sets};
ghost use Rattle.vx_init.specs.Beginning.{IsBeginning};
ghost use Rattle.vx_init.specs.Rises.{rise_cmp};
ghost use Rattle.vx_init.specs.Rising.{begun_by, first_above, pushed, rise_or_open};

use crate::marking::mark_rises;
use crate::pushing::push_chain;
use crate::rise::Rise;
use crate::rising::rises;
use crate::upward::{first_above, too_many};
use std::alloc::Global;
use vx_cond::Leaf;
use vx_families::{CLASS_WORD, raise, unsupported};
use vx_group::{Callers, Group};
use vx_heap::Heap;
use vx_java::parts::name_of_class;
use vx_link::Program;
use vx_outcome::Outcomes;
use vx_space::{Space, SpaceFault};
use vx_value::{ClassId, Name};

/// All runs of a group end by an interface that would be initialised before a class.
fn blocked_part<S: Space>(
    alloc: Global,
    program: &Program,
    group: &Group<S>,
    interface: ClassId,
) -> Result<Outcomes<S>, SpaceFault>
    ensures { IfOk result (λ r. (sets : Sets S.Id) → Gives program.now (λ s. unsupported_in program.now s class_word (class_at program.now interface.0).name) sets sets group.now r.items.items) }
{
    let what = Name::of(alloc, name_of_class(program, interface))?;
    unsupported(alloc, program, group, CLASS_WORD, what)
}

/// All runs of a group get the frames of so many classes from one upward, unless there would be too many (JVMS 2.5.2).
fn pushed_part<S: Space>(
    alloc: Global,
    program: &Program,
    space: &S,
    callers: &mut Callers<S>,
    group: Group<S>,
    class: ClassId,
    most: usize,
) -> Result<Outcomes<S>, SpaceFault>
    requires classes { HasClassNumbers program.now }
    requires group { IsGroupIn (S.sets space.now) callers.old group }
    ensures keeps { Keeps callers.old callers.new }
    ensures gives { IfOk result (λ r. (heap : HeapView S S.Id) → GivesIn program.now (λ _ _. pushed program.now (first_above program.now class.0 most)) (S.sets space.now) (S.sets space.now) callers.old callers.new group r.items.items heap) }
{
    let chain = first_above(alloc, program, class, most)?;
    if too_many(group.depth(), &chain) {
        let raised = raise(alloc, program, group, b"java/lang/StackOverflowError")?;
        return Ok(raised);
    }
    let above = push_chain(alloc, program, space, callers, group, &chain)?;
    let made = Outcomes::go(alloc, above)?;
    Ok(made)
}

/// What comes of the part of a group of one rise.
fn begun_part<S: Space>(
    alloc: Global,
    program: &Program,
    space: &S,
    callers: &mut Callers<S>,
    part: Group<S>,
    class: ClassId,
    rise: Rise,
) -> Result<Outcomes<S>, SpaceFault>
    requires classes { HasClassNumbers program.now }
    requires group { IsGroupIn (S.sets space.now) callers.old part }
    ensures keeps { Keeps callers.old callers.new }
    ensures gives { IfOk result (λ r. (heap : HeapView S S.Id) → GivesIn program.now (λ _ _. begun_by program.now class.0 rise) (S.sets space.now) (S.sets space.now) callers.old callers.new part r.items.items heap) }
{
    match rise {
        Rise::Open => {
            let all = program.classes.len();
            pushed_part(alloc, program, space, callers, part, class, all)
        }
        Rise::Begins(below) => pushed_part(alloc, program, space, callers, part, class, below),
        Rise::Fails(_) => {
            let raised = raise(alloc, program, part, b"java/lang/NoClassDefFoundError")?;
            Ok(raised)
        }
        Rise::Blocked(interface) => blocked_part(alloc, program, &part, interface),
    }
}

/// The parts of a group by the rises. Mostly there is one.
fn begun_parts<S: Space>(
    alloc: Global,
    program: &Program,
    space: &mut S,
    callers: &mut Callers<S>,
    group: Group<S>,
    class: ClassId,
    rises: &[Leaf<Rise, S>],
) -> Result<Outcomes<S>, SpaceFault>
    requires classes { HasClassNumbers program.now }
    requires group { IsGroupIn (S.sets space.old) callers.old group }
    requires leaves { AreLeaves rise_cmp (S.sets space.old) rises.now }
    requires cover { Cover (S.sets space.old) (path_of group) rises.now }
    ensures extends { Extends (S.sets space.old) (S.sets space.new) }
    ensures keeps { Keeps callers.old callers.new }
    ensures gives { IfOk result (λ r. (heap : HeapView S S.Id) → GivesIn program.now (λ _ c. begun_by program.now class.0 (rise_or_open (value_at (S.sets space.old) rises.now c))) (S.sets space.old) (S.sets space.new) callers.old callers.new group r.items.items heap) }
{
    let mut outcomes = Outcomes::new(alloc);
    let mut rest = group;
    for leaf in rises {
        let (part, others) = rest.split(space, leaf.condition)?;
        let made = begun_part(alloc, program, space, callers, part, class, leaf.value)?;
        outcomes.append(made)?;
        rest = others;
    }
    Ok(outcomes)
}

/// Begins the initialisation of a class in all runs of a group (JVMS 5.5). The class and those above it that have not begun are in
/// progress then, and have their frames above that of the group, the topmost class on top; or they have failed, and an exception is raised,
/// where the class above them has. Runs for which an interface would be initialised before one of the classes end, and those with too many
/// frames raise an exception, and nothing is marked for them. Marks are set at the group's configurations alone. After a refusal heap, tree
/// and group are given up.
pub fn begin<S: Space>(
    alloc: Global,
    program: &Program,
    space: &mut S,
    heap: &mut Heap<S>,
    callers: &mut Callers<S>,
    group: Group<S>,
    class: ClassId,
) -> Result<Outcomes<S>, SpaceFault>
    requires { IsBeginning program.now (S.sets space.old) heap.old callers.old group }
    ensures extends { Extends (S.sets space.old) (S.sets space.new) }
    ensures begun { IfOk result (λ r. AttemptsAt program.now (λ _ s. begin_of program.now s class.0) (S.sets space.old) (S.sets space.new) heap.old heap.new callers.old callers.new group r.items.items) }
{
    let rises = rises(alloc, program, space, heap, class, group.path())?;
    mark_rises(
        alloc,
        program,
        space,
        heap,
        class,
        group.depth(),
        rises.leaves(),
    )?;
    begun_parts(alloc, program, space, callers, group, class, rises.leaves())
}
