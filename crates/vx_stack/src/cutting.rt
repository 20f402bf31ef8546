//! Where a stack form cuts the operands, at all configurations of a group at once.

ghost use Rattle.std.specs.Prelude.{◌≡◌, Bool, IfOk, List, Some, true};
ghost use Rattle.vx_space.specs.Sets.{Extends};
ghost use Rattle.vx_cond.specs.Cond.{IsCond, cond_at};
ghost use Rattle.vx_cond.specs.Row.{IsRow};
ghost use Rattle.vx_value.specs.Slot.{slot_cmp};
ghost use Rattle.vx_group_states.specs.Answering.{operands_at};
ghost use Rattle.vx_stack.specs.Cuts.{cut_by, first_cut as first_of};
ghost use Rattle.vx_stack.specs.Exact.{cut_cmp};

use crate::cut::{Cut, first_cut, next, reach};
use std::alloc::Global;
use vx_cond::{Cond, Row};
use vx_java::Shuffle;
use vx_space::{Space, SpaceFault};
use vx_value::Slot;

/// Where a stack form cuts the operands, at each configuration of the scope. No more operands are looked at than the form
/// has words.
pub fn cuts<S: Space>(
    alloc: Global,
    space: &mut S,
    stack: &Row<Slot, S>,
    form: Shuffle,
) -> Result<Cond<Cut, S>, SpaceFault>
    requires row { IsRow slot_cmp (S.sets space.old) stack.now }
    ensures extends { Extends (S.sets space.old) (S.sets space.new) }
    ensures cond { IfOk result (IsCond cut_cmp (S.sets space.new)) }
    ensures scope { IfOk result (λ r. r.scope ≡ stack.now.scope) }
    ensures at { IfOk result (λ r. (c : List Bool) → (S.sets space.old).test stack.now.scope c ≡ true → cond_at (S.sets space.new) r c ≡ Some (cut_by (first_of form) (operands_at (S.sets space.old) stack.now c))) }
{
    let mut found = Cond::one(alloc, space, first_cut(form), stack.scope())?;
    let depth = stack.len();
    for i in 0..depth.min(reach(form)) {
        found = found.zip(space, stack.get(depth - 1 - i), next)?;
    }
    Ok(found)
}
