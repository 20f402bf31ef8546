//! Groups by what an instruction makes of their operands.

ghost use Rattle.std.specs.Prelude.{◌≡◌, ◌+◌, ◌∷◌, ◌<◌, ◌≤◌, ◌^◌, IfOk, Bool, List, drop, length, true};
ghost use Rattle.vx_space.specs.Sets.{IsKnown, Sets, Extends};
ghost use Rattle.vx_cond.specs.Cond.{IsCond, IsInside};
ghost use Rattle.vx_cond.specs.Row.{IsRow};
ghost use Rattle.vx_cond.specs.Slots.{slot_at};
ghost use Rattle.vx_value.specs.Slot.{slot_cmp};
ghost use Rattle.vx_group.specs.Group.{IsGroup, path_of};
ghost use Rattle.vx_heap.specs.Heap.{HeapView};
ghost use Rattle.vx_java.specs.Machine.{at_position, go as go_of, settle as settle_of, Ended, Go, Raise as RaiseOf};
ghost use Rattle.vx_link.specs.declared.program.Program.{Program};
ghost use Rattle.vx_group_states.specs.Answering.{AreHeld, AreKinds, AreObjectsHeld, AreSlotsHeld, IsKindHeld, IsReady, answer_at, answered_as, answered_by, end_by, kind_of, operands_at, put_on, slot_by, thrown_by, written};
ghost use Rattle.vx_group_states.specs.Answers.{answer_cmp};
ghost use Rattle.vx_group_states.specs.Sites.{Gives, GivesAt, HasPast, here};
ghost use Rattle.vx_group_states.specs.Stands.{IsMessage, message_of};

use crate::answer::Answer;
use crate::endings::{illegal, pass};
use crate::parting::part_in;
use crate::settling::settle;
use crate::site::Site;
use std::alloc::{AllocError, Global};
use vx_cond::{Cond, Leaf, Row};
use vx_group::Group;
use vx_outcome::{Outcome, Outcomes};
use vx_space::{Space, SpaceFault};
use vx_value::{ClassId, End, Slot, Stream};

/// What parts are told apart by: the answer without its slot.
fn kind(answer: Answer) -> Answer
    ensures { result ≡ kind_of answer }
{
    match answer {
        Answer::Push(_) => Answer::Push(Slot::Top),
        Answer::Give(_) => Answer::Give(Slot::Top),
        Answer::Throw(_) => Answer::Throw(Slot::Top),
        other => other,
    }
}

/// The slot of an answer that has one.
fn slot_of(answer: Answer) -> Slot
    ensures { result ≡ slot_by answer }
{
    match answer {
        Answer::Push(slot) | Answer::Give(slot) | Answer::Throw(slot) => slot,
        _ => Slot::Top,
    }
}

/// The end of an answer that ends the run.
fn end_of(answer: Answer) -> End
    ensures { result ≡ end_by answer }
{
    match answer {
        Answer::Exit(code) => End::Exit(code),
        _ => End::Unfinished,
    }
}

/// Takes so many operands off.
fn drop_operands<S: Space>(space: &S, stack: &mut Row<Slot, S>, count: usize)
    requires row { IsRow slot_cmp (S.sets space.now) stack.old }
    requires enough { count ≤ length stack.old.conds }
    ensures row { IsRow slot_cmp (S.sets space.now) stack.new }
    ensures scope { stack.new.scope ≡ stack.old.scope }
    ensures length { length stack.new.conds + count ≡ length stack.old.conds }
    ensures at { (c : List Bool) → operands_at (S.sets space.now) stack.new c ≡ drop count (operands_at (S.sets space.now) stack.old c) }
{
    for _operand in 0..count {
        let Some(_top) = stack.pop() else {
            unreachable!()
        };
    }
}

/// The slots of the answers inside a path.
fn slots_inside<S: Space>(
    space: &mut S,
    answers: &Cond<Answer, S>,
    path: S::Id,
) -> Result<Cond<Slot, S>, SpaceFault>
    requires answers { IsCond answer_cmp (S.sets space.old) answers.now }
    requires known { IsKnown (S.sets space.old) path }
    requires inside { IsInside (S.sets space.old) path answers.now.scope }
    ensures extends { Extends (S.sets space.old) (S.sets space.new) }
    ensures cond { IfOk result (IsCond slot_cmp (S.sets space.new)) }
    ensures scope { IfOk result (λ r. r.scope ≡ path) }
    ensures at { IfOk result (λ r. (c : List Bool) → (S.sets space.old).test path c ≡ true → slot_at (S.sets space.new) r c ≡ slot_by (answer_at (S.sets space.old) answers.now c)) }
{
    let inside = answers.restrict(space, path)?;
    let values = inside.map(space, slot_of)?;
    Ok(values)
}

/// The group with so many operands taken off and a value put on.
fn with_operand<S: Space>(
    space: &S,
    group: Group<S>,
    taken: usize,
    value: Cond<Slot, S>,
) -> Result<Group<S>, AllocError>
    requires group { IsGroup (S.sets space.now) group }
    requires enough { taken ≤ length group.top.stack.conds }
    requires few { length group.top.stack.conds + 1 < 2 ^ 32 + taken }
    requires value { IsCond slot_cmp (S.sets space.now) value }
    requires scope { value.scope ≡ path_of group }
    ensures same { IfOk result (λ r. r ≡ record group { top = record group.top { stack = r.top.stack } }) }
    ensures row { IfOk result (λ r. IsRow slot_cmp (S.sets space.now) r.top.stack) }
    ensures scope { IfOk result (λ r. r.top.stack.scope ≡ path_of group) }
    ensures at { IfOk result (λ r. (c : List Bool) → operands_at (S.sets space.now) r.top.stack c ≡ slot_at (S.sets space.now) value c ∷ drop taken (operands_at (S.sets space.now) group.top.stack c)) }
{
    let (below, mut frame) = group.take_top();
    drop_operands(space, &mut frame.stack, taken);
    frame.stack.push(value)?;
    Ok(below.put_top(frame))
}

/// The group at a position, with so many operands taken off.
fn moved_to<S: Space>(space: &S, group: Group<S>, taken: usize, position: u32) -> Group<S>
    requires group { IsGroup (S.sets space.now) group }
    requires enough { taken ≤ length group.top.stack.conds }
    ensures same { result ≡ record group { top = record group.top { position = position; stack = result.top.stack } } }
    ensures row { IsRow slot_cmp (S.sets space.now) result.top.stack }
    ensures scope { result.top.stack.scope ≡ path_of group }
    ensures at { (c : List Bool) → operands_at (S.sets space.now) result.top.stack c ≡ drop taken (operands_at (S.sets space.now) group.top.stack c) }
{
    let (below, mut frame) = group.take_top();
    drop_operands(space, &mut frame.stack, taken);
    frame.position = position;
    below.put_top(frame)
}

/// The part of a group in which values are pushed.
fn pushed_part<S: Space>(
    alloc: Global,
    site: &Site,
    space: &mut S,
    part: Group<S>,
    taken: usize,
    answers: &Cond<Answer, S>,
) -> Result<Outcomes<S>, SpaceFault>
    requires group { IsGroup (S.sets space.old) part }
    requires past { HasPast site.now part }
    requires enough { taken ≤ length part.top.stack.conds }
    requires few { length part.top.stack.conds + 1 < 2 ^ 32 + taken }
    requires answers { IsCond answer_cmp (S.sets space.old) answers.now }
    requires inside { IsInside (S.sets space.old) (path_of part) answers.now.scope }
    ensures extends { Extends (S.sets space.old) (S.sets space.new) }
    ensures gives { IfOk result (λ r. (heap : HeapView S S.Id) → AreSlotsHeld (S.sets space.old) heap (path_of part) answers.now → GivesAt site.now.program.now (put_on settle_of site.now taken (S.sets space.old) answers.now) (S.sets space.old) (S.sets space.new) part r.items.items heap) }
{
    let values = slots_inside(space, answers, part.path())?;
    let group = with_operand(space, part, taken, values)?;
    settle(alloc, site, space, group)
}

/// The part of a group in which values are given for which room was asked before.
fn given_part<S: Space>(
    alloc: Global,
    site: &Site,
    space: &mut S,
    part: Group<S>,
    taken: usize,
    answers: &Cond<Answer, S>,
) -> Result<Outcomes<S>, SpaceFault>
    requires group { IsGroup (S.sets space.old) part }
    requires past { HasPast site.now part }
    requires enough { taken ≤ length part.top.stack.conds }
    requires few { length part.top.stack.conds + 1 < 2 ^ 32 + taken }
    requires answers { IsCond answer_cmp (S.sets space.old) answers.now }
    requires inside { IsInside (S.sets space.old) (path_of part) answers.now.scope }
    ensures extends { Extends (S.sets space.old) (S.sets space.new) }
    ensures gives { IfOk result (λ r. (heap : HeapView S S.Id) → AreSlotsHeld (S.sets space.old) heap (path_of part) answers.now → GivesAt site.now.program.now (put_on go_of site.now taken (S.sets space.old) answers.now) (S.sets space.old) (S.sets space.new) part r.items.items heap) }
{
    let values = slots_inside(space, answers, part.path())?;
    let group = with_operand(space, part, taken, values)?;
    let outcomes = pass(alloc, site, space, group)?;
    Ok(outcomes)
}

/// The part of a group that goes to a position.
fn jumped_part<S: Space>(
    alloc: Global,
    space: &S,
    part: Group<S>,
    taken: usize,
    position: u32,
) -> Result<Outcomes<S>, SpaceFault>
    requires group { IsGroup (S.sets space.now) part }
    requires enough { taken ≤ length part.top.stack.conds }
    ensures { IfOk result (λ r. (program : Program) → Gives program (λ s. Go (at_position s position (drop taken s.top.operands))) (S.sets space.now) (S.sets space.now) part r.items.items) }
{
    let moved = moved_to(space, part, taken, position);
    let outcomes = Outcomes::go(alloc, moved)?;
    Ok(outcomes)
}

/// The part of a group that goes past the instruction with the operands that are left.
fn passed_part<S: Space>(
    alloc: Global,
    site: &Site,
    space: &S,
    part: Group<S>,
    taken: usize,
) -> Result<Outcomes<S>, SpaceFault>
    requires group { IsGroup (S.sets space.now) part }
    requires past { HasPast site.now part }
    requires enough { taken ≤ length part.top.stack.conds }
    ensures { IfOk result (λ r. Gives site.now.program.now (λ s. go_of (here site.now s) (drop taken s.top.operands)) (S.sets space.now) (S.sets space.now) part r.items.items) }
{
    let position = part.top_frame().position + site.size;
    jumped_part(alloc, space, part, taken, position)
}

/// The part of a group that writes a text and goes past the instruction.
fn written_part<S: Space>(
    alloc: Global,
    site: &Site,
    space: &S,
    part: Group<S>,
    taken: usize,
    stream: Stream,
    text: u64,
) -> Result<Outcomes<S>, SpaceFault>
    requires group { IsGroup (S.sets space.now) part }
    requires past { HasPast site.now part }
    requires enough { taken ≤ length part.top.stack.conds }
    ensures { IfOk result (λ r. (heap : HeapView S S.Id) → text < length heap.texts → GivesAt site.now.program.now (λ heap _ s. written site.now taken stream text heap s) (S.sets space.now) (S.sets space.now) part r.items.items heap) }
{
    let position = part.top_frame().position + site.size;
    let group = moved_to(space, part, taken, position);
    let mut outcomes = Outcomes::new(alloc);
    outcomes.push(Outcome::Write {
        group,
        stream,
        text,
    })?;
    Ok(outcomes)
}

/// The part of a group whose runs end.
fn ended_part<S: Space>(alloc: Global, part: &Group<S>, end: End) -> Result<Outcomes<S>, SpaceFault>
    ensures { IfOk result (λ r. (program : Program) (sets : Sets S.Id) → Gives program (λ _. Ended end) sets sets part.now r.items.items) }
{
    let mut outcomes = Outcomes::new(alloc);
    outcomes.push(Outcome::Ended {
        condition: part.path(),
        end,
    })?;
    Ok(outcomes)
}

/// The part of a group that throws objects.
fn thrown_part<S: Space>(
    alloc: Global,
    space: &mut S,
    part: Group<S>,
    answers: &Cond<Answer, S>,
) -> Result<Outcomes<S>, SpaceFault>
    requires group { IsGroup (S.sets space.old) part }
    requires answers { IsCond answer_cmp (S.sets space.old) answers.now }
    requires inside { IsInside (S.sets space.old) (path_of part) answers.now.scope }
    ensures extends { Extends (S.sets space.old) (S.sets space.new) }
    ensures gives { IfOk result (λ r. (program : Program) (heap : HeapView S S.Id) → AreObjectsHeld (S.sets space.old) heap (path_of part) answers.now → GivesAt program (thrown_by (S.sets space.old) answers.now) (S.sets space.old) (S.sets space.new) part r.items.items heap) }
{
    let thrown = slots_inside(space, answers, part.path())?;
    let mut outcomes = Outcomes::new(alloc);
    outcomes.push(Outcome::Throw {
        group: part,
        thrown,
    })?;
    Ok(outcomes)
}

/// The part of a group that raises an exception.
fn raised_part<S: Space>(
    alloc: Global,
    part: Group<S>,
    class: ClassId,
    message: Option<u64>,
) -> Result<Outcomes<S>, SpaceFault>
    ensures { IfOk result (λ r. (program : Program) (sets : Sets S.Id) (heap : HeapView S S.Id) → IsMessage heap message → GivesAt program (λ heap _ s. RaiseOf class.0 (message_of heap message) s) sets sets part r.items.items heap) }
{
    let mut outcomes = Outcomes::new(alloc);
    outcomes.push(Outcome::Raise {
        group: part,
        class,
        message,
    })?;
    Ok(outcomes)
}

/// The part of a group in which the answers are of one kind.
fn answered_part<S: Space>(
    alloc: Global,
    site: &Site,
    space: &mut S,
    part: Group<S>,
    taken: usize,
    kind: Answer,
    answers: &Cond<Answer, S>,
) -> Result<Outcomes<S>, SpaceFault>
    requires ready { IsReady site.now (S.sets space.old) part taken answers.now }
    ensures extends { Extends (S.sets space.old) (S.sets space.new) }
    ensures gives { IfOk result (λ r. (heap : HeapView S S.Id) → IsKindHeld (S.sets space.old) heap (path_of part) kind answers.now → GivesAt site.now.program.now (answered_as site.now taken (S.sets space.old) kind answers.now) (S.sets space.old) (S.sets space.new) part r.items.items heap) }
{
    match kind {
        Answer::Illegal => illegal(alloc, site.program, &part),
        Answer::Raise(class, message) => raised_part(alloc, part, class, message),
        Answer::Push(_) => pushed_part(alloc, site, space, part, taken, answers),
        Answer::Jump(position) => jumped_part(alloc, space, part, taken, position),
        Answer::Pass => passed_part(alloc, site, space, part, taken),
        Answer::Give(_) => given_part(alloc, site, space, part, taken, answers),
        Answer::Write(stream, text) => written_part(alloc, site, space, part, taken, stream, text),
        Answer::Exit(_) => ended_part(alloc, &part, end_of(kind)),
        Answer::Throw(_) => thrown_part(alloc, space, part, answers),
    }
}

/// The parts of a group by the kinds of the answers.
fn answered_parts<S: Space>(
    alloc: Global,
    site: &Site,
    space: &mut S,
    group: Group<S>,
    taken: usize,
    kinds: &[Leaf<Answer, S>],
    answers: &Cond<Answer, S>,
) -> Result<Outcomes<S>, SpaceFault>
    requires ready { IsReady site.now (S.sets space.old) group taken answers.now }
    requires kinds { AreKinds (S.sets space.old) (path_of group) answers.now kinds.now }
    ensures extends { Extends (S.sets space.old) (S.sets space.new) }
    ensures gives { IfOk result (λ r. (heap : HeapView S S.Id) → AreHeld (S.sets space.old) heap (path_of group) answers.now → GivesAt site.now.program.now (answered_by site.now taken (S.sets space.old) answers.now) (S.sets space.old) (S.sets space.new) group r.items.items heap) }
{
    let mut outcomes = Outcomes::new(alloc);
    let mut rest = group;
    for leaf in kinds {
        let (part, left) = part_in(space, rest, leaf.condition)?;
        let made = answered_part(alloc, site, space, part, taken, leaf.value, answers)?;
        outcomes.append(made)?;
        let Some(others) = left else {
            return Ok(outcomes);
        };
        rest = others;
    }
    Ok(outcomes)
}

/// Does at each configuration of a group what the answer there says, with so many operands taken off: ends the run, raises,
/// throws, goes to a position, or goes past the instruction, where it may put a value on the operands or write a text. The
/// group is divided by the kinds of the answers: a part has one outcome, whatever the values in it.
pub fn carry_out<S: Space>(
    alloc: Global,
    site: &Site,
    space: &mut S,
    group: Group<S>,
    taken: usize,
    answers: &Cond<Answer, S>,
) -> Result<Outcomes<S>, SpaceFault>
    requires ready { IsReady site.now (S.sets space.old) group taken answers.now }
    requires scope { answers.now.scope ≡ path_of group }
    ensures extends { Extends (S.sets space.old) (S.sets space.new) }
    ensures gives { IfOk result (λ r. (heap : HeapView S S.Id) → AreHeld (S.sets space.old) heap (path_of group) answers.now → GivesAt site.now.program.now (answered_by site.now taken (S.sets space.old) answers.now) (S.sets space.old) (S.sets space.new) group r.items.items heap) }
{
    let kinds = answers.map(space, kind)?;
    answered_parts(alloc, site, space, group, taken, kinds.leaves(), answers)
}
