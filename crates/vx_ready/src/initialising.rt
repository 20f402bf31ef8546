//! The initialisation of a class where a row needs it, for all configurations of a path at once (JVMS 5.5).

ghost use Rattle.std.specs.Prelude.{◌≡◌, ◌&&◌, Bool, IfOk, List, None, OnOk, Some, [], ◌∷◌, if◌then◌else◌, not};
ghost use Rattle.std.specs.Ordering.{bool_cmp};
ghost use Rattle.vx_cond.specs.Cond.{IsCond, IsInside, cond_at};
ghost use Rattle.vx_heap.specs.Heap.{IsHeap, IsHeapFor, inits_at};
ghost use Rattle.vx_java.specs.Ids.{HasClassNumbers};
ghost use Rattle.vx_java.specs.Initialisation.{init_chain, is_failed, is_not, quiet_chain};
ghost use Rattle.vx_java.specs.Machine.{init_at};
ghost use Rattle.vx_space.specs.Sets.{Extends, IsKnown, IsSet};
ghost use Rattle.vx_value.specs.Slot.{init_state_cmp};
ghost use Rattle.vx_ready.specs.Changing.{IsChanged};
ghost use Rattle.vx_ready.specs.Initialising.{AreMarks, IsReadied, has_failed, is_quiet, is_yes, marked_at, numbers_of, with_done, with_state};

use std::alloc::Global;
use vx_cond::Cond;
use vx_heap::Heap;
use vx_java::blocked;
use vx_java::parts::{has_initialiser, superclass_of};
use vx_link::Program;
use vx_space::{Space, SpaceFault};
use vx_value::{ClassId, InitState};

/// A class that gets a state of initialisation, in the configurations of the condition.
#[derive(Drop)]
pub struct Mark<S: Space> {
    pub class: ClassId,
    pub condition: S::Id,
}

/// How a row that needs a class goes on in the configurations where it needs it: it proceeds, it raises since the class
/// has failed, or else the initialisation of the class begins.
#[derive(Drop)]
pub struct Readiness<S: Space> {
    pub proceeds: S::Id,
    pub fails: S::Id,
}

/// The configurations at which the answer is yes.
pub fn where_yes<S: Space>(space: &S, answers: &Cond<bool, S>) -> S::Id
    requires { IsCond bool_cmp (S.sets space.now) answers.now }
    ensures { IsSet (S.sets space.now) result (λ c. is_yes (cond_at (S.sets space.now) answers.now c)) }
{
    let leaves = answers.leaves();
    for leaf in leaves {
        if leaf.value {
            return leaf.condition;
        }
    }
    space.never()
}

/// The states of a class inside a path. A class that the program doesn't have is initialised.
pub fn states_inside<S: Space>(
    alloc: Global,
    program: &Program,
    space: &mut S,
    heap: &Heap<S>,
    class: ClassId,
    path: S::Id,
) -> Result<Cond<InitState, S>, SpaceFault>
    requires heap { IsHeap (S.sets space.old) heap.now }
    requires program { IsHeapFor program.now heap.now }
    requires known { IsKnown (S.sets space.old) path }
    requires inside { IsInside (S.sets space.old) path heap.now.allowed }
    ensures extends { Extends (S.sets space.old) (S.sets space.new) }
    ensures cond { IfOk result (IsCond init_state_cmp (S.sets space.new)) }
    ensures scope { IfOk result (λ r. r.scope ≡ path) }
    ensures at { IfOk result (λ r. (c : List Bool) → cond_at (S.sets space.new) r c ≡ (if (S.sets space.old).test path c then Some (init_at (inits_at (S.sets space.old) heap.now c) class.0) else None)) }
{
    if class.0 as usize >= program.classes.len() {
        let done = Cond::one(alloc, space, InitState::Done, path)?;
        return Ok(done);
    }
    heap.init_state(class).restrict(space, path)
}

fn is_not(state: InitState) -> bool
    ensures { result ≡ is_not state }
{
    matches!(state, InitState::Not)
}

fn is_failed(state: InitState) -> bool
    ensures { result ≡ is_failed state }
{
    matches!(state, InitState::Failed)
}

/// The configurations of a path in which the initialisation of a class has not begun.
fn not_begun<S: Space>(
    alloc: Global,
    program: &Program,
    space: &mut S,
    heap: &Heap<S>,
    class: ClassId,
    path: S::Id,
) -> Result<S::Id, SpaceFault>
    requires heap { IsHeap (S.sets space.old) heap.now }
    requires program { IsHeapFor program.now heap.now }
    requires known { IsKnown (S.sets space.old) path }
    requires inside { IsInside (S.sets space.old) path heap.now.allowed }
    ensures extends { Extends (S.sets space.old) (S.sets space.new) }
    ensures set { IfOk result (λ r. IsSet (S.sets space.new) r (λ c. (S.sets space.old).test path c && is_not (init_at (inits_at (S.sets space.old) heap.now c) class.0))) }
{
    let states = states_inside(alloc, program, space, heap, class, path)?;
    let answers = states.map(space, is_not)?;
    Ok(where_yes(space, &answers))
}

/// The configurations of a path in which the initialisation of a class has failed.
fn failed<S: Space>(
    alloc: Global,
    program: &Program,
    space: &mut S,
    heap: &Heap<S>,
    class: ClassId,
    path: S::Id,
) -> Result<S::Id, SpaceFault>
    requires heap { IsHeap (S.sets space.old) heap.now }
    requires program { IsHeapFor program.now heap.now }
    requires known { IsKnown (S.sets space.old) path }
    requires inside { IsInside (S.sets space.old) path heap.now.allowed }
    ensures extends { Extends (S.sets space.old) (S.sets space.new) }
    ensures set { IfOk result (λ r. IsSet (S.sets space.new) r (λ c. (S.sets space.old).test path c && has_failed (inits_at (S.sets space.old) heap.now c) class.0)) }
{
    let states = states_inside(alloc, program, space, heap, class, path)?;
    let answers = states.map(space, is_failed)?;
    Ok(where_yes(space, &answers))
}

/// Whether marking a class has no other effect: it has no `<clinit>`, and no interface would be initialised before it.
fn is_quiet(program: &Program, class: ClassId) -> bool
    requires { HasClassNumbers program.now }
    ensures { result ≡ is_quiet program.now class.0 }
{
    !has_initialiser(program, class) && blocked(program, class).is_none()
}

/// The configurations of a path in which the chain of a class isn't quiet.
fn unquiet<S: Space>(
    alloc: Global,
    program: &Program,
    space: &mut S,
    heap: &Heap<S>,
    class: ClassId,
    path: S::Id,
) -> Result<S::Id, SpaceFault>
    requires classes { HasClassNumbers program.now }
    requires heap { IsHeap (S.sets space.old) heap.now }
    requires program { IsHeapFor program.now heap.now }
    requires known { IsKnown (S.sets space.old) path }
    requires inside { IsInside (S.sets space.old) path heap.now.allowed }
    ensures extends { Extends (S.sets space.old) (S.sets space.new) }
    ensures set { IfOk result (λ r. IsSet (S.sets space.new) r (λ c. (S.sets space.old).test path c && not (quiet_chain program.now (inits_at (S.sets space.old) heap.now c) class.0))) }
{
    let mut left = program.classes.len();
    let mut next = Some(class);
    let mut climbing = path;
    let mut unquiet = space.never();
    while left > 0 {
        let Some(class) = next else {
            return Ok(unquiet);
        };
        if space.is_never(climbing) {
            return Ok(unquiet);
        }
        let below_failed = failed(alloc, program, space, heap, class, climbing)?;
        unquiet = space.or(unquiet, below_failed)?;
        climbing = not_begun(alloc, program, space, heap, class, climbing)?;
        if !is_quiet(program, class) {
            unquiet = space.or(unquiet, climbing)?;
            return Ok(unquiet);
        }
        next = superclass_of(program, class);
        left -= 1;
    }
    Ok(unquiet)
}

/// The classes of the chain of a class inside a path, each with the configurations in which it is one of the chain.
fn chain_marks<S: Space>(
    alloc: Global,
    program: &Program,
    space: &mut S,
    heap: &Heap<S>,
    class: ClassId,
    path: S::Id,
) -> Result<Vec<Mark<S>>, SpaceFault>
    requires heap { IsHeap (S.sets space.old) heap.now }
    requires program { IsHeapFor program.now heap.now }
    requires known { IsKnown (S.sets space.old) path }
    requires inside { IsInside (S.sets space.old) path heap.now.allowed }
    ensures extends { Extends (S.sets space.old) (S.sets space.new) }
    ensures marks { IfOk result (λ r. AreMarks (S.sets space.new) ((S.sets space.old).test path) r.items) }
    ensures at { IfOk result (λ r. (c : List Bool) → marked_at (S.sets space.new) r.items c ≡ (if (S.sets space.old).test path c then init_chain program.now (inits_at (S.sets space.old) heap.now c) class.0 else [])) }
{
    let mut marks = Vec::new(alloc);
    let mut left = program.classes.len();
    let mut next = Some(class);
    let mut climbing = path;
    while left > 0 {
        let Some(class) = next else {
            return Ok(marks);
        };
        if space.is_never(climbing) {
            return Ok(marks);
        }
        climbing = not_begun(alloc, program, space, heap, class, climbing)?;
        marks.push(Mark {
            class,
            condition: climbing,
        })?;
        next = superclass_of(program, class);
        left -= 1;
    }
    Ok(marks)
}

/// Gives one class a state. A class that the program doesn't have has none.
pub fn mark_one<S: Space>(
    alloc: Global,
    program: &Program,
    space: &mut S,
    heap: &mut Heap<S>,
    mark: &Mark<S>,
    state: InitState,
) -> Result<(), SpaceFault>
    requires heap { IsHeap (S.sets space.old) heap.old }
    requires program { IsHeapFor program.now heap.old }
    requires known { IsKnown (S.sets space.old) mark.now.condition }
    requires inside { IsInside (S.sets space.old) mark.now.condition heap.old.allowed }
    ensures extends { Extends (S.sets space.old) (S.sets space.new) }
    ensures ok { OnOk result (IsChanged (S.sets space.old) (S.sets space.new) heap.old heap.new (λ c. with_state state (marked_at (S.sets space.old) (mark.now ∷ []) c))) }
{
    if mark.class.0 as usize >= program.classes.len() {
        return Ok(());
    }
    let states = Cond::one(alloc, space, state, mark.condition)?;
    heap.set_init(space, mark.class, &states)?;
    Ok(())
}

/// Gives classes a state in the configurations of a condition, which runs. After want of memory the heap is given up.
pub fn mark_classes<S: Space>(
    alloc: Global,
    program: &Program,
    space: &mut S,
    heap: &mut Heap<S>,
    classes: &[ClassId],
    condition: S::Id,
    state: InitState,
) -> Result<(), SpaceFault>
    requires heap { IsHeap (S.sets space.old) heap.old }
    requires program { IsHeapFor program.now heap.old }
    requires known { IsKnown (S.sets space.old) condition }
    requires inside { IsInside (S.sets space.old) condition heap.old.allowed }
    ensures extends { Extends (S.sets space.old) (S.sets space.new) }
    ensures ok { OnOk result (IsChanged (S.sets space.old) (S.sets space.new) heap.old heap.new (λ c. with_state state (if (S.sets space.old).test condition c then numbers_of classes.now else []))) }
{
    for class in classes {
        let mark = Mark {
            class: *class,
            condition,
        };
        mark_one(alloc, program, space, heap, &mark, state)?;
    }
    Ok(())
}

/// Initialises classes, each in its condition.
fn mark_all<S: Space>(
    alloc: Global,
    program: &Program,
    space: &mut S,
    heap: &mut Heap<S>,
    marks: &[Mark<S>],
) -> Result<(), SpaceFault>
    requires heap { IsHeap (S.sets space.old) heap.old }
    requires program { IsHeapFor program.now heap.old }
    requires marks { AreMarks (S.sets space.old) ((S.sets space.old).test heap.old.allowed) marks.now }
    ensures extends { Extends (S.sets space.old) (S.sets space.new) }
    ensures ok { OnOk result (IsChanged (S.sets space.old) (S.sets space.new) heap.old heap.new (λ c. with_done (marked_at (S.sets space.old) marks.now c))) }
{
    for mark in marks {
        mark_one(alloc, program, space, heap, mark, InitState::Done)?;
    }
    Ok(())
}

/// Makes a class ready for a row that needs it in the configurations of a path, which runs (JVMS 5.5): the row proceeds
/// where the class is initialised or in progress, and where marking it and the classes above it that have not begun has
/// no other effect; there they are marked. After want of memory the heap is given up.
pub fn make_ready<S: Space>(
    alloc: Global,
    program: &Program,
    space: &mut S,
    heap: &mut Heap<S>,
    class: ClassId,
    path: S::Id,
) -> Result<Readiness<S>, SpaceFault>
    requires classes { HasClassNumbers program.now }
    requires heap { IsHeap (S.sets space.old) heap.old }
    requires program { IsHeapFor program.now heap.old }
    requires known { IsKnown (S.sets space.old) path }
    requires inside { IsInside (S.sets space.old) path heap.old.allowed }
    ensures extends { Extends (S.sets space.old) (S.sets space.new) }
    ensures ok { IfOk result (IsReadied program.now (S.sets space.old) (S.sets space.new) heap.old heap.new class.0 path) }
{
    let fails = failed(alloc, program, space, heap, class, path)?;
    let rest = space.minus(path, fails)?;
    let begins = unquiet(alloc, program, space, heap, class, rest)?;
    let proceeds = space.minus(rest, begins)?;
    let marks = chain_marks(alloc, program, space, heap, class, proceeds)?;
    mark_all(alloc, program, space, heap, &marks)?;
    Ok(Readiness { proceeds, fails })
}
