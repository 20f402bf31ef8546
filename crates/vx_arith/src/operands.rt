//! What an instruction makes of the operands of a group, for all configurations at once.

ghost use Rattle.std.specs.Prelude.{◌≡◌, ◌+◌, ◌<◌, Bool, IfOk, List, length, true};
ghost use Rattle.vx_arith.specs.Family.{divides, takes_one, takes_two};
ghost use Rattle.vx_arith.specs.Numbers.{of_one, of_top, of_top_two, of_two};
ghost use Rattle.vx_arith.specs.Raising.{IsForZero};
ghost use Rattle.vx_cond.specs.Cond.{IsCond};
ghost use Rattle.vx_cond.specs.Row.{IsRow};
ghost use Rattle.vx_families.specs.Attempts.{row_by};
ghost use Rattle.vx_group.specs.Group.{IsGroup};
ghost use Rattle.vx_heap.specs.Heap.{HeapView};
ghost use Rattle.vx_space.specs.Sets.{Extends};
ghost use Rattle.vx_group_states.specs.Answering.{answer_at, operands_at};
ghost use Rattle.vx_group_states.specs.Answers.{answer_cmp};
ghost use Rattle.vx_group_states.specs.Sites.{Gives, GivesAt};
ghost use Rattle.vx_value.specs.Slot.{slot_cmp};

use crate::numbers::{of_one, of_two};
use crate::spot::{Spot, spot_at};
use std::alloc::Global;
use vx_cond::{Cond, Row};
use vx_group::Group;
use vx_group_states::{Answer, Site, carry_out, illegal};
use vx_java::Operation;
use vx_outcome::Outcomes;
use vx_space::{Space, SpaceFault};
use vx_value::Slot;

/// What an instruction makes of the operand on top, at each configuration.
fn answers_of_top<S: Space>(
    space: &mut S,
    stack: &Row<Slot, S>,
    spot: &Spot,
    operation: Operation,
) -> Result<Cond<Answer, S>, SpaceFault>
    requires row { IsRow slot_cmp (S.sets space.old) stack.now }
    requires one { 0 < length stack.now.conds }
    ensures extends { Extends (S.sets space.old) (S.sets space.new) }
    ensures cond { IfOk result (IsCond answer_cmp (S.sets space.new)) }
    ensures scope { IfOk result (λ r. r.scope ≡ stack.now.scope) }
    ensures at { IfOk result (λ r. (c : List Bool) → (S.sets space.old).test stack.now.scope c ≡ true → answer_at (S.sets space.new) r c ≡ of_top spot.now operation (operands_at (S.sets space.old) stack.now c)) }
{
    let answer = |operand: Slot| -> Answer
        ensures { result ≡ of_one spot.entry.now operation operand }
    { of_one(spot, operation, operand) };
    let top = stack.get(stack.len() - 1);
    let answers = top.map(space, answer)?;
    Ok(answers)
}

/// What an instruction makes of the two operands on top, at each configuration.
fn answers_of_top_two<S: Space>(
    space: &mut S,
    stack: &Row<Slot, S>,
    spot: &Spot,
    by_zero: Answer,
    operation: Operation,
) -> Result<Cond<Answer, S>, SpaceFault>
    requires row { IsRow slot_cmp (S.sets space.old) stack.now }
    requires two { 1 < length stack.now.conds }
    ensures extends { Extends (S.sets space.old) (S.sets space.new) }
    ensures cond { IfOk result (IsCond answer_cmp (S.sets space.new)) }
    ensures scope { IfOk result (λ r. r.scope ≡ stack.now.scope) }
    ensures at { IfOk result (λ r. (c : List Bool) → (S.sets space.old).test stack.now.scope c ≡ true → answer_at (S.sets space.new) r c ≡ of_top_two spot.now by_zero operation (operands_at (S.sets space.old) stack.now c)) }
{
    let answer = |upper: Slot, lower: Slot| -> Answer
        ensures { result ≡ of_two spot.entry.now by_zero operation upper lower }
    { of_two(spot, by_zero, operation, upper, lower) };
    let count = stack.len();
    let top = stack.get(count - 1);
    let below = stack.get(count - 2);
    let answers = top.zip(space, below, answer)?;
    Ok(answers)
}

/// Does at each configuration of a group what the instruction makes of the operand on top. Where there is none, all runs
/// end.
pub fn on_top<S: Space>(
    alloc: Global,
    site: &Site,
    space: &mut S,
    operation: Operation,
    group: Group<S>,
) -> Result<Outcomes<S>, SpaceFault>
    requires one { takes_one operation ≡ true }
    requires group { IsGroup (S.sets space.old) group }
    requires short { group.top.position + site.now.size < 65536 }
    ensures extends { Extends (S.sets space.old) (S.sets space.new) }
    ensures gives { IfOk result (λ r. Gives site.now.program.now (row_by site.now operation) (S.sets space.old) (S.sets space.new) group r.items.items) }
{
    let top = group.top_frame();
    if top.stack.len() < 1 {
        return illegal(alloc, site.program, &group);
    }
    let spot = spot_at(site, top.position);
    let answers = answers_of_top(space, &top.stack, &spot, operation)?;
    carry_out(alloc, site, space, group, 1, &answers)
}

/// Does at each configuration of a group what the instruction makes of the two operands on top, with this answer for a zero
/// divisor. Where there are fewer, all runs end.
pub fn on_top_two<S: Space>(
    alloc: Global,
    site: &Site,
    space: &mut S,
    by_zero: Answer,
    operation: Operation,
    group: Group<S>,
) -> Result<Outcomes<S>, SpaceFault>
    requires two { takes_two operation ≡ true }
    requires group { IsGroup (S.sets space.old) group }
    requires short { group.top.position + site.now.size < 65536 }
    ensures extends { Extends (S.sets space.old) (S.sets space.new) }
    ensures gives { IfOk result (λ r. (heap : HeapView S S.Id) → IsForZero (divides operation) site.now.program.now heap by_zero → GivesAt site.now.program.now (λ _ _. row_by site.now operation) (S.sets space.old) (S.sets space.new) group r.items.items heap) }
{
    let top = group.top_frame();
    if top.stack.len() < 2 {
        return illegal(alloc, site.program, &group);
    }
    let spot = spot_at(site, top.position);
    let answers = answers_of_top_two(space, &top.stack, &spot, by_zero, operation)?;
    carry_out(alloc, site, space, group, 2, &answers)
}
