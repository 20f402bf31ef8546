//! Room for a value on the operands under those that an instruction takes (JVMS 2.6.2, 4.7.3).

ghost use Rattle.std.specs.Prelude.{◌≡◌, ◌+◌, ◌-◌, ◌<◌, ◌≤◌, ◌^◌, Bool, IfOk, List, Some, drop, length, nat_le, true};
ghost use Rattle.std.specs.Ordering.{bool_cmp, nat_cmp};
ghost use Rattle.vx_cond.specs.Cond.{IsCond, cond_at};
ghost use Rattle.vx_cond.specs.Row.{IsRow};
ghost use Rattle.vx_group_states.specs.Answering.{operands_at};
ghost use Rattle.vx_group_states.specs.Widths.{slot_width, slots_size};
ghost use Rattle.vx_space.specs.Sets.{Extends};
ghost use Rattle.vx_value.specs.Slot.{slot_cmp};

use std::alloc::Global;
use vx_cond::{Cond, Row};
use vx_group_states::width;
use vx_space::{Space, SpaceFault};
use vx_value::Slot;

/// Whether so many operands fit in so many words beside a value, though each of them were a long.
fn surely_fit(operands: usize, value: u64, room: u16) -> bool
    ensures { result ≡ true → value + (operands + operands) ≤ room }
{
    let room = usize::from(room);
    let value = value as usize;
    operands <= room && value <= room - operands && operands <= room - operands - value
}

/// How many words a value and the lowest operands take, at each configuration of the scope.
fn sizes<S: Space>(
    alloc: Global,
    space: &mut S,
    stack: &Row<Slot, S>,
    count: usize,
    value: u64,
) -> Result<Cond<u64, S>, SpaceFault>
    requires row { IsRow slot_cmp (S.sets space.old) stack.now }
    requires count { count ≤ length stack.now.conds }
    requires few { length stack.now.conds < 2 ^ 32 }
    requires value { value < 3 }
    ensures extends { Extends (S.sets space.old) (S.sets space.new) }
    ensures cond { IfOk result (IsCond nat_cmp (S.sets space.new)) }
    ensures scope { IfOk result (λ r. r.scope ≡ stack.now.scope) }
    ensures at { IfOk result (λ r. (c : List Bool) → (S.sets space.old).test stack.now.scope c ≡ true → cond_at (S.sets space.new) r c ≡ Some (value + slots_size (drop (length stack.now.conds - count) (operands_at (S.sets space.old) stack.now c)))) }
{
    let mut total = Cond::one(alloc, space, value, stack.scope())?;
    for i in 0..count {
        let more = |n: u64, slot: Slot| -> u64
            ensures { n + 2 < 2 ^ 64 → result ≡ n + slot_width slot }
        { n.saturating_add(width(slot)) };
        total = total.zip(space, stack.get(i), more)?;
    }
    Ok(total)
}

/// Whether a value of one or two words has room on the operands where so many are taken off, at each configuration of the
/// scope.
pub fn where_room<S: Space>(
    alloc: Global,
    space: &mut S,
    stack: &Row<Slot, S>,
    taken: usize,
    value: u64,
    room: u16,
) -> Result<Cond<bool, S>, SpaceFault>
    requires row { IsRow slot_cmp (S.sets space.old) stack.now }
    requires taken { taken ≤ length stack.now.conds }
    requires few { length stack.now.conds < 2 ^ 32 }
    requires value { value < 3 }
    ensures extends { Extends (S.sets space.old) (S.sets space.new) }
    ensures cond { IfOk result (IsCond bool_cmp (S.sets space.new)) }
    ensures scope { IfOk result (λ r. r.scope ≡ stack.now.scope) }
    ensures at { IfOk result (λ r. (c : List Bool) → (S.sets space.old).test stack.now.scope c ≡ true → cond_at (S.sets space.new) r c ≡ Some (nat_le (value + slots_size (drop taken (operands_at (S.sets space.old) stack.now c))) room)) }
{
    let count = stack.len() - taken;
    if surely_fit(count, value, room) {
        let yes = Cond::one(alloc, space, true, stack.scope())?;
        return Ok(yes);
    }
    let sizes = sizes(alloc, space, stack, count, value)?;
    let words = u64::from(room);
    let is_within = |n: u64| -> bool
        ensures { result ≡ nat_le n words }
    { n <= words };
    let fits = sizes.map(space, is_within)?;
    Ok(fits)
}
