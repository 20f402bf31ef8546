//! Operands that have to fit in a method's greatest stack.

ghost use Rattle.std.specs.Prelude.{◌≡◌, ◌+◌, ◌<◌, ◌≤◌, ◌^◌, Some, IfOk, IsTrue, Bool, List, length, nat_le, true};
ghost use Rattle.std.specs.Ordering.{nat_cmp};
ghost use Rattle.vx_space.specs.Sets.{Extends};
ghost use Rattle.vx_cond.specs.Cond.{IsCond, cond_at};
ghost use Rattle.vx_cond.specs.Row.{IsRow};
ghost use Rattle.vx_cond.specs.Slots.{slots_at};
ghost use Rattle.vx_value.specs.Slot.{slot_cmp};
ghost use Rattle.vx_group.specs.Group.{IsGroup};
ghost use Rattle.vx_java.specs.Machine.{settle as settle_of};
ghost use Rattle.vx_group_states.specs.Sites.{Gives, HasPast, here};
ghost use Rattle.vx_group_states.specs.Widths.{slot_width, slots_size};

use crate::endings::pass;
use crate::passing::pass_where;
use crate::site::Site;
use std::alloc::Global;
use vx_cond::{Cond, Row};
use vx_group::Group;
use vx_outcome::Outcomes;
use vx_space::{Space, SpaceFault};
use vx_value::Slot;

/// How many words a slot takes on the operand stack: a long two, any other one (JVMS 2.6.2).
pub fn width(slot: Slot) -> u64
    ensures { result ≡ slot_width slot }
{
    match slot {
        Slot::Long(_) => 2,
        _ => 1,
    }
}

/// How many words the operands take, at each configuration of the scope, for fewer than 2^32 operands.
pub fn stack_size<S: Space>(
    alloc: Global,
    space: &mut S,
    stack: &Row<Slot, S>,
) -> Result<Cond<u64, S>, SpaceFault>
    requires row { IsRow slot_cmp (S.sets space.old) stack.now }
    requires few { length stack.now.conds < 2 ^ 32 }
    ensures extends { Extends (S.sets space.old) (S.sets space.new) }
    ensures cond { IfOk result (IsCond nat_cmp (S.sets space.new)) }
    ensures scope { IfOk result (λ r. r.scope ≡ stack.now.scope) }
    ensures at { IfOk result (λ r. (c : List Bool) → (S.sets space.old).test stack.now.scope c ≡ true → cond_at (S.sets space.new) r c ≡ Some (slots_size (slots_at (S.sets space.old) stack.now c))) }
{
    let mut total = Cond::one(alloc, space, 0, stack.scope())?;
    for i in 0..stack.len() {
        let more = |n: u64, slot: Slot| -> u64
            ensures { n + 2 < 2 ^ 64 → result ≡ n + slot_width slot }
        { n.saturating_add(width(slot)) };
        total = total.zip(space, stack.get(i), more)?;
    }
    Ok(total)
}

/// Whether so many operands fit in so many words, though each of them were a long.
fn surely_fit(operands: usize, room: usize) -> bool
    ensures { IsTrue result → operands + operands ≤ room }
{
    operands <= room && operands <= room - operands
}

/// Goes past the instruction where the operands fit in the method's greatest stack, and ends the runs elsewhere (JVMS
/// 4.7.3).
pub fn settle<S: Space>(
    alloc: Global,
    site: &Site,
    space: &mut S,
    group: Group<S>,
) -> Result<Outcomes<S>, SpaceFault>
    requires group { IsGroup (S.sets space.old) group }
    requires past { HasPast site.now group }
    ensures extends { Extends (S.sets space.old) (S.sets space.new) }
    ensures gives { IfOk result (λ r. Gives site.now.program.now (λ s. settle_of (here site.now s) s.top.operands) (S.sets space.old) (S.sets space.new) group r.items.items) }
{
    let stack = &group.top_frame().stack;
    if surely_fit(stack.len(), usize::from(site.code.max_stack)) {
        let passed = pass(alloc, site, space, group)?;
        return Ok(passed);
    }
    let room = u64::from(site.code.max_stack);
    let sizes = stack_size(alloc, space, stack)?;
    let is_within = |n: u64| -> bool
        ensures { result ≡ nat_le n room }
    { n <= room };
    let fits = sizes.map(space, is_within)?;
    pass_where(alloc, site, space, group, fits.leaves())
}
