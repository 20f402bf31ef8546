//! Operands in the order that a stack form gives them.

ghost use Rattle.std.specs.Prelude.{◌≡◌, ◌++◌, ◌+◌, ◌*◌, ◌<◌, ◌≤◌, ◌^◌, Bool, IfOk, List, OnOk, drop, length, take};
ghost use Rattle.vx_space.specs.Sets.{Extends};
ghost use Rattle.vx_cond.specs.Cond.{IsCond};
ghost use Rattle.vx_cond.specs.Row.{IsRow};
ghost use Rattle.vx_cond.specs.Slots.{slot_at, slots_at};
ghost use Rattle.vx_value.specs.Slot.{slot_cmp};
ghost use Rattle.vx_group.specs.Group.{IsGroup, path_of};
ghost use Rattle.vx_group_states.specs.Answering.{operands_at};
ghost use Rattle.vx_stack.specs.Forms.{operands_reordered, reordered};

use crate::order::Order;
use std::alloc::{AllocError, Global};
use vx_cond::{Cond, Row};
use vx_group::Group;
use vx_space::{Space, SpaceFault};
use vx_value::Slot;

/// Takes so many operands off; the one on top is the first of those that are taken.
fn take_off<S: Space>(
    alloc: Global,
    space: &S,
    stack: &mut Row<Slot, S>,
    count: usize,
) -> Result<Row<Slot, S>, AllocError>
    requires row { IsRow slot_cmp (S.sets space.now) stack.old }
    requires enough { count ≤ length stack.old.conds }
    ensures row { OnOk result (IsRow slot_cmp (S.sets space.now) stack.new) }
    ensures scope { OnOk result (stack.new.scope ≡ stack.old.scope) }
    ensures length { OnOk result (length stack.new.conds + count ≡ length stack.old.conds) }
    ensures left { OnOk result ((c : List Bool) → operands_at (S.sets space.now) stack.new c ≡ drop count (operands_at (S.sets space.now) stack.old c)) }
    ensures taken_row { IfOk result (IsRow slot_cmp (S.sets space.now)) }
    ensures taken_scope { IfOk result (λ r. r.scope ≡ stack.old.scope) }
    ensures taken_length { IfOk result (λ r. length r.conds ≡ count) }
    ensures taken { IfOk result (λ r. (c : List Bool) → slots_at (S.sets space.now) r c ≡ take count (operands_at (S.sets space.now) stack.old c)) }
{
    let mut taken = Row::new(alloc, stack.scope());
    for _operand in 0..count {
        let Some(top) = stack.pop() else {
            unreachable!()
        };
        taken.push(top)?;
    }
    Ok(taken)
}

/// The same value, once more.
fn copied<S: Space>(space: &mut S, value: &Cond<Slot, S>) -> Result<Cond<Slot, S>, SpaceFault>
    requires { IsCond slot_cmp (S.sets space.old) value.now }
    ensures extends { Extends (S.sets space.old) (S.sets space.new) }
    ensures cond { IfOk result (IsCond slot_cmp (S.sets space.new)) }
    ensures scope { IfOk result (λ r. r.scope ≡ value.now.scope) }
    ensures at { IfOk result (λ r. (c : List Bool) → slot_at (S.sets space.new) r c ≡ slot_at (S.sets space.old) value.now c) }
{
    let same = |slot: Slot| -> Slot
        ensures { result ≡ slot }
    { slot };
    let copy = value.map(space, same)?;
    Ok(copy)
}

/// Puts these values on, the first one on top.
fn put_on<S: Space>(
    space: &mut S,
    stack: &mut Row<Slot, S>,
    values: &Row<Slot, S>,
) -> Result<(), SpaceFault>
    requires row { IsRow slot_cmp (S.sets space.old) stack.old }
    requires values { IsRow slot_cmp (S.sets space.old) values.now }
    requires scope { values.now.scope ≡ stack.old.scope }
    ensures extends { Extends (S.sets space.old) (S.sets space.new) }
    ensures row { OnOk result (IsRow slot_cmp (S.sets space.new) stack.new) }
    ensures scope { OnOk result (stack.new.scope ≡ stack.old.scope) }
    ensures length { OnOk result (length stack.new.conds ≡ length stack.old.conds + length values.now.conds) }
    ensures at { OnOk result ((c : List Bool) → operands_at (S.sets space.new) stack.new c ≡ slots_at (S.sets space.old) values.now c ++ operands_at (S.sets space.old) stack.old c) }
{
    let count = values.len();
    for i in 0..count {
        let copy = copied(space, values.get(count - 1 - i))?;
        stack.push(copy)?;
    }
    Ok(())
}

/// Puts the values of the upper words, and those of the words under them, back in their new order.
fn put_back<S: Space>(
    space: &mut S,
    stack: &mut Row<Slot, S>,
    order: Order,
    above: &Row<Slot, S>,
    under: &Row<Slot, S>,
) -> Result<(), SpaceFault>
    requires row { IsRow slot_cmp (S.sets space.old) stack.old }
    requires above { IsRow slot_cmp (S.sets space.old) above.now }
    requires under { IsRow slot_cmp (S.sets space.old) under.now }
    requires above_scope { above.now.scope ≡ stack.old.scope }
    requires under_scope { under.now.scope ≡ stack.old.scope }
    ensures extends { Extends (S.sets space.old) (S.sets space.new) }
    ensures row { OnOk result (IsRow slot_cmp (S.sets space.new) stack.new) }
    ensures scope { OnOk result (stack.new.scope ≡ stack.old.scope) }
    ensures length { OnOk result (length stack.new.conds ≤ length stack.old.conds + length under.now.conds + 2 * length above.now.conds) }
    ensures at { OnOk result ((c : List Bool) → operands_at (S.sets space.new) stack.new c ≡ reordered order (slots_at (S.sets space.old) above.now c) (slots_at (S.sets space.old) under.now c) (operands_at (S.sets space.old) stack.old c)) }
{
    match order {
        Order::Dropped => Ok(()),
        Order::Swapped => {
            put_on(space, stack, above)?;
            put_on(space, stack, under)?;
            Ok(())
        }
        Order::Doubled => {
            put_on(space, stack, above)?;
            put_on(space, stack, under)?;
            put_on(space, stack, above)?;
            Ok(())
        }
    }
}

/// Puts the operands in their new order, where the upper words of the form have so many values and the lower words so
/// many.
fn reorder<S: Space>(
    alloc: Global,
    space: &mut S,
    stack: &mut Row<Slot, S>,
    order: Order,
    upper: usize,
    lower: usize,
) -> Result<(), SpaceFault>
    requires row { IsRow slot_cmp (S.sets space.old) stack.old }
    requires enough { upper + lower ≤ length stack.old.conds }
    ensures extends { Extends (S.sets space.old) (S.sets space.new) }
    ensures row { OnOk result (IsRow slot_cmp (S.sets space.new) stack.new) }
    ensures scope { OnOk result (stack.new.scope ≡ stack.old.scope) }
    ensures length { OnOk result (length stack.new.conds ≤ length stack.old.conds + upper) }
    ensures at { OnOk result ((c : List Bool) → operands_at (S.sets space.new) stack.new c ≡ operands_reordered order upper lower (operands_at (S.sets space.old) stack.old c)) }
{
    let above = take_off(alloc, space, stack, upper)?;
    let under = take_off(alloc, space, stack, lower)?;
    put_back(space, stack, order, &above, &under)?;
    Ok(())
}

/// The group with its operands in their new order.
pub fn with_form<S: Space>(
    alloc: Global,
    space: &mut S,
    group: Group<S>,
    order: Order,
    upper: usize,
    lower: usize,
) -> Result<Group<S>, SpaceFault>
    requires group { IsGroup (S.sets space.old) group }
    requires enough { upper + lower ≤ length group.top.stack.conds }
    requires few { length group.top.stack.conds + upper < 2 ^ 32 }
    ensures extends { Extends (S.sets space.old) (S.sets space.new) }
    ensures same { IfOk result (λ r. r ≡ record group { top = record group.top { stack = r.top.stack } }) }
    ensures row { IfOk result (λ r. IsRow slot_cmp (S.sets space.new) r.top.stack) }
    ensures scope { IfOk result (λ r. r.top.stack.scope ≡ path_of group) }
    ensures at { IfOk result (λ r. (c : List Bool) → operands_at (S.sets space.new) r.top.stack c ≡ operands_reordered order upper lower (operands_at (S.sets space.old) group.top.stack c)) }
{
    let (below, mut frame) = group.take_top();
    reorder(alloc, space, &mut frame.stack, order, upper, lower)?;
    Ok(below.put_top(frame))
}
