//! Arrays with their parts, by conditional lengths (JVMS 6.5 newarray, anewarray, multianewarray).

ghost use Rattle.std.specs.List.{list_all};
ghost use Rattle.std.specs.Prelude.{◌≡◌, ◌<◌, ◌≤◌, ◌+◌, ◌∷◌, ◌⊎◌, [], Bool, IfOk, List, Some, false, length, map, true};
ghost use Rattle.vx_arrays.specs.Making.{AreGridsAnswered, AreGridsMade, IsGridMade, IsRefusals, is_length, lengths_behind, lengths_of, slots_from};
ghost use Rattle.vx_cond.specs.Cond.{AreDisjoint, IsCond};
ghost use Rattle.vx_cond.specs.Row.{IsRow};
ghost use Rattle.vx_families.specs.Attempts.{AttemptsBy, IsAttemptBy, IsGiven};
ghost use Rattle.vx_group_states.specs.Answers.{answer_cmp};
ghost use Rattle.vx_group_states.specs.Sites.{IsSomewhere, here};
ghost use Rattle.vx_heap.specs.Changing.{MakesObject};
ghost use Rattle.vx_heap.specs.Heap.{IsHeap};
ghost use Rattle.vx_java.specs.Arrays.{array_of, lengths_off, new_grid_of};
ghost use Rattle.vx_java.specs.Ids.{HasClassNumbers};
ghost use Rattle.vx_ready.specs.Running.{IsRunning};
ghost use Rattle.vx_space.specs.Sets.{Extends, IsKnown};
ghost use Rattle.vx_value.specs.Arithmetic.{natural};
ghost use Rattle.vx_value.specs.Slot.{slot_cmp};

use crate::classes::element_default;
use crate::lengths::{Refusals, refusals_of, refused};
use std::alloc::{AllocError, Global};
use vx_cells::{with_answer, write_inside};
use vx_cond::{Cond, Row};
use vx_families::no_class;
use vx_group::Group;
use vx_group_states::{Answer, Site, carry_out, illegal};
use vx_heap::Heap;
use vx_java::Operation;
use vx_java::arrays::component_of;
use vx_java::parts::class_of_method;
use vx_link::Program;
use vx_outcome::Outcomes;
use vx_space::{Space, SpaceFault};
use vx_value::{ClassId, Slot};

/// An array of a length in the configurations of a condition, with what its elements begin with.
fn first_array<S: Space>(
    alloc: Global,
    program: &Program,
    heap: &mut Heap<S>,
    class: ClassId,
    size: i32,
    condition: S::Id,
) -> Result<u64, AllocError>
    requires { is_length size ≡ true }
    ensures { IfOk result (MakesObject heap.old condition (array_of program.now class.0 (natural size)) heap.new) }
{
    let element = element_default(program, class);
    let made = heap.alloc_array(alloc, class, size.unsigned_abs(), element, condition)?;
    Ok(made)
}

/// An array of these lengths with its parts, in the configurations of a condition: an array before its parts, and each part
/// with its own parts before the next.
fn grid<S: Space>(
    alloc: Global,
    program: &Program,
    space: &mut S,
    heap: &mut Heap<S>,
    class: ClassId,
    size: i32,
    deeper: &[i32],
    condition: S::Id,
) -> Result<u64, SpaceFault>
    requires heap { IsHeap (S.sets space.old) heap.old }
    requires known { IsKnown (S.sets space.old) condition }
    requires somewhere { IsSomewhere (S.sets space.old) condition }
    requires fits { is_length size ≡ true }
    requires deeper { list_all is_length deeper.now ≡ true }
    ensures extends { Extends (S.sets space.old) (S.sets space.new) }
    ensures ok { IfOk result (IsGridMade program.now class.0 (map natural (size ∷ deeper.now)) (S.sets space.old) (S.sets space.new) heap.old heap.new ((S.sets space.old).test condition)) }
{
    let array = first_array(alloc, program, heap, class, size, condition)?;
    let [next, others @ ..] = deeper else {
        return Ok(array);
    };
    let component = component_of(program, class);
    let count = size.unsigned_abs();
    for index in 0..count {
        let part = grid(
            alloc, program, space, heap, component, *next, others, condition,
        )?;
        write_inside(alloc, space, heap, array, index, Slot::Ref(part), condition)?;
    }
    Ok(array)
}

/// Puts what lengths come to in a condition beside the answers of other configurations: an array with its parts, which is
/// made in the condition, or an exception.
fn answered<S: Space>(
    alloc: Global,
    program: &Program,
    space: &mut S,
    heap: &mut Heap<S>,
    refusals: Refusals,
    class: ClassId,
    lengths: &[i32],
    condition: S::Id,
    answers: &Cond<Answer, S>,
) -> Result<Cond<Answer, S>, SpaceFault>
    requires refusals { IsRefusals program.now refusals }
    requires heap { IsHeap (S.sets space.old) heap.old }
    requires known { IsKnown (S.sets space.old) condition }
    requires somewhere { IsSomewhere (S.sets space.old) condition }
    requires some { 0 < length lengths.now }
    requires answers { IsCond answer_cmp (S.sets space.old) answers.now }
    requires disjoint { AreDisjoint (S.sets space.old) answers.now.scope condition }
    ensures extends { Extends (S.sets space.old) (S.sets space.new) }
    ensures ok { IfOk result (AreGridsMade program.now class.0 (λ _. Some lengths.now) (S.sets space.old) (S.sets space.new) heap.old heap.new ((S.sets space.old).test condition) answers.now) }
{
    if let Some(refusal) = refused(refusals, lengths) {
        return with_answer(
            alloc,
            space,
            answers,
            Answer::Raise(refusal, None),
            condition,
        );
    }
    let [size, deeper @ ..] = lengths else {
        unreachable!()
    };
    let array = grid(alloc, program, space, heap, class, *size, deeper, condition)?;
    with_answer(
        alloc,
        space,
        answers,
        Answer::Give(Slot::Ref(array)),
        condition,
    )
}

/// What the lengths on top of the operands come to inside a condition, where those of the first dimensions are these: the
/// condition is narrowed by each further length. The answers of other configurations stay.
#[cycle(narrowing)]
fn answers_inside<S: Space>(
    alloc: Global,
    program: &Program,
    space: &mut S,
    heap: &mut Heap<S>,
    refusals: Refusals,
    class: ClassId,
    stack: &Row<Slot, S>,
    dimensions: usize,
    lengths: &[i32],
    condition: S::Id,
    answers: Cond<Answer, S>,
) -> Result<Cond<Answer, S>, SpaceFault>
    requires refusals { IsRefusals program.now refusals }
    requires heap { IsHeap (S.sets space.old) heap.old }
    requires stack { IsRow slot_cmp (S.sets space.old) stack.now }
    requires enough { dimensions ≤ length stack.now.conds }
    requires some { 0 < dimensions }
    requires few { length lengths.now ≤ dimensions }
    requires known { IsKnown (S.sets space.old) condition }
    requires somewhere { 0 < length lengths.now → IsSomewhere (S.sets space.old) condition }
    requires inside { (c : List Bool) → (S.sets space.old).test condition c ≡ true → (S.sets space.old).test stack.now.scope c ≡ true }
    requires answers { IsCond answer_cmp (S.sets space.old) answers }
    requires disjoint { AreDisjoint (S.sets space.old) answers.scope condition }
    ensures extends { Extends (S.sets space.old) (S.sets space.new) }
    ensures ok { IfOk result (AreGridsMade program.now class.0 (λ c. lengths_behind lengths.now (slots_from (S.sets space.old) stack.now dimensions (length lengths.now) c)) (S.sets space.old) (S.sets space.new) heap.old heap.new ((S.sets space.old).test condition) answers) }
{
    if lengths.len() >= dimensions {
        let whole = answered(
            alloc, program, space, heap, refusals, class, lengths, condition, &answers,
        )?;
        return Ok(whole);
    }
    let mut made = answers;
    let place = stack.len() - dimensions + lengths.len();
    let leaves = stack.get(place).leaves();
    for leaf in leaves {
        let inner = space.and(condition, leaf.condition)?;
        if space.is_never(inner) {
            continue;
        }
        made = answers_behind(
            alloc, program, space, heap, refusals, class, stack, dimensions, lengths, leaf.value,
            inner, made,
        )?;
    }
    Ok(made)
}

/// The same where the length of the next dimension is this, if it is one.
#[cycle(narrowing)]
fn answers_behind<S: Space>(
    alloc: Global,
    program: &Program,
    space: &mut S,
    heap: &mut Heap<S>,
    refusals: Refusals,
    class: ClassId,
    stack: &Row<Slot, S>,
    dimensions: usize,
    lengths: &[i32],
    next: Slot,
    condition: S::Id,
    answers: Cond<Answer, S>,
) -> Result<Cond<Answer, S>, SpaceFault>
    requires refusals { IsRefusals program.now refusals }
    requires heap { IsHeap (S.sets space.old) heap.old }
    requires stack { IsRow slot_cmp (S.sets space.old) stack.now }
    requires enough { dimensions ≤ length stack.now.conds }
    requires few { length lengths.now < dimensions }
    requires known { IsKnown (S.sets space.old) condition }
    requires somewhere { IsSomewhere (S.sets space.old) condition }
    requires inside { (c : List Bool) → (S.sets space.old).test condition c ≡ true → (S.sets space.old).test stack.now.scope c ≡ true }
    requires answers { IsCond answer_cmp (S.sets space.old) answers }
    requires disjoint { AreDisjoint (S.sets space.old) answers.scope condition }
    ensures extends { Extends (S.sets space.old) (S.sets space.new) }
    ensures ok { IfOk result (AreGridsMade program.now class.0 (λ c. lengths_behind lengths.now (next ∷ slots_from (S.sets space.old) stack.now dimensions (length lengths.now + 1) c)) (S.sets space.old) (S.sets space.new) heap.old heap.new ((S.sets space.old).test condition) answers) }
{
    let Slot::Int(size) = next else {
        let ended = with_answer(alloc, space, &answers, Answer::Illegal, condition)?;
        return Ok(ended);
    };
    let mut more = Vec::from_slice(alloc, lengths)?;
    more.push(size)?;
    let made = answers_inside(
        alloc,
        program,
        space,
        heap,
        refusals,
        class,
        stack,
        dimensions,
        more.as_slice(),
        condition,
        answers,
    )?;
    Ok(made)
}

/// What the lengths of so many dimensions on top of operands come to at each configuration of their scope: an array with its
/// parts, which is made there, or an exception.
fn answers_of<S: Space>(
    alloc: Global,
    program: &Program,
    space: &mut S,
    heap: &mut Heap<S>,
    class: ClassId,
    stack: &Row<Slot, S>,
    dimensions: usize,
) -> Result<Cond<Answer, S>, SpaceFault>
    requires classes { HasClassNumbers program.now }
    requires heap { IsHeap (S.sets space.old) heap.old }
    requires stack { IsRow slot_cmp (S.sets space.old) stack.now }
    requires enough { dimensions ≤ length stack.now.conds }
    requires some { 0 < dimensions }
    ensures extends { Extends (S.sets space.old) (S.sets space.new) }
    ensures ok { IfOk result (AreGridsAnswered program.now class.0 (λ c. lengths_of (slots_from (S.sets space.old) stack.now dimensions 0 c)) (S.sets space.old) (S.sets space.new) heap.old heap.new stack.now.scope) }
{
    let none = Cond::one(alloc, space, Answer::Illegal, space.never())?;
    let refusals = refusals_of(program);
    answers_inside(
        alloc,
        program,
        space,
        heap,
        refusals,
        class,
        stack,
        dimensions,
        &[],
        stack.scope(),
        none,
    )
}

/// Whether there is no dimension, or no operand for one.
fn is_lacking(dimensions: usize, operands: usize) -> bool
    ensures yes { result ≡ true → (dimensions ≡ 0) ⊎ (operands < dimensions) }
    ensures no { result ≡ false → (0 < dimensions) × (dimensions ≤ operands) }
{
    dimensions == 0 || operands < dimensions
}

/// New arrays of a class, by the lengths of so many dimensions on top of the operands.
pub(crate) fn new_arrays<S: Space>(
    alloc: Global,
    site: &Site,
    space: &mut S,
    heap: &mut Heap<S>,
    class: ClassId,
    dimensions: usize,
    group: Group<S>,
) -> Result<Outcomes<S>, SpaceFault>
    requires running { IsRunning site.now (S.sets space.old) heap.old group }
    ensures extends { Extends (S.sets space.old) (S.sets space.new) }
    ensures ok { IfOk result (λ r. AttemptsBy site.now (λ s. new_grid_of (here site.now s) class.0 (lengths_off dimensions [] s.top.operands)) (S.sets space.old) (S.sets space.new) heap.old heap.new group r.items.items) }
{
    let stack = &group.top_frame().stack;
    if is_lacking(dimensions, stack.len()) {
        return illegal(alloc, site.program, &group);
    }
    let answers = answers_of(alloc, site.program, space, heap, class, stack, dimensions)?;
    carry_out(alloc, site, space, group, dimensions, &answers)
}

/// multianewarray.
pub(crate) fn new_grid<S: Space>(
    alloc: Global,
    site: &Site,
    space: &mut S,
    heap: &mut Heap<S>,
    index: u16,
    dimensions: u8,
    group: Group<S>,
) -> Result<Outcomes<S>, SpaceFault>
    requires { IsGiven site.now (Operation.NewGrid index dimensions) (S.sets space.old) heap.old group }
    ensures extends { Extends (S.sets space.old) (S.sets space.new) }
    ensures ok { IfOk result (λ r. IsAttemptBy site.now (Operation.NewGrid index dimensions) (S.sets space.old) (S.sets space.new) heap.old heap.new group r.items.items) }
{
    let current = class_of_method(site.program, group.top_frame().method);
    let Some(class) = heap.resolved(site.program, current, index) else {
        return no_class(alloc, site, &group, index);
    };
    let count = usize::from(dimensions);
    new_arrays(alloc, site, space, heap, class, count, group)
}
