//! Stores into local variables (JVMS 6.5 istore, lstore, astore).

ghost use Rattle.std.specs.Prelude.{◌≡◌, ◌<◌, IfOk, List, Bool, Some, true, length};
ghost use Rattle.std.specs.Ordering.{bool_cmp};
ghost use Rattle.vx_space.specs.Sets.{Extends};
ghost use Rattle.vx_cond.specs.Cond.{IsCond, cond_at};
ghost use Rattle.vx_group.specs.Group.{IsGroup, path_of};
ghost use Rattle.vx_java.specs.Locals.{store as store_of};
ghost use Rattle.vx_group_states.specs.Sites.{Gives, HasPast, here};
ghost use Rattle.vx_families.specs.Sorts.{slot_is_of};
ghost use Rattle.vx_locals.specs.Slots.{top_at};

use crate::writing::write_local;
use std::alloc::Global;
use vx_cond::Cond;
use vx_families::slot_is_of;
use vx_group::Group;
use vx_group_states::{Site, illegal, pass_where};
use vx_java::Sort;
use vx_outcome::Outcomes;
use vx_space::{Space, SpaceFault};
use vx_value::Slot;

/// Takes the operand on top off and puts it into a local, and goes past the instruction where it is of the sort.
fn store_where<S: Space>(
    alloc: Global,
    site: &Site,
    space: &mut S,
    group: Group<S>,
    sort: Sort,
    place: u16,
    fits: &Cond<bool, S>,
) -> Result<Outcomes<S>, SpaceFault>
    requires group { IsGroup (S.sets space.old) group }
    requires past { HasPast site.now group }
    requires one { 0 < length group.top.stack.conds }
    requires fits { IsCond bool_cmp (S.sets space.old) fits.now }
    requires scope { fits.now.scope ≡ path_of group }
    requires at { (c : List Bool) → (S.sets space.old).test (path_of group) c ≡ true → cond_at (S.sets space.old) fits.now c ≡ Some (slot_is_of sort (top_at (S.sets space.old) group.top.stack c)) }
    ensures extends { Extends (S.sets space.old) (S.sets space.new) }
    ensures gives { IfOk result (λ r. Gives site.now.program.now (λ s. store_of (here site.now s) sort place s.top.operands) (S.sets space.old) (S.sets space.new) group r.items.items) }
{
    let (below, mut frame) = group.take_top();
    let Some(value) = frame.stack.pop() else {
        unreachable!()
    };
    write_local(alloc, space, &mut frame.locals, sort, place, value)?;
    pass_where(alloc, site, space, below.put_top(frame), fits.leaves())
}

/// Takes the operand on top off and puts it into a local where it is of the sort.
pub(crate) fn store<S: Space>(
    alloc: Global,
    site: &Site,
    space: &mut S,
    group: Group<S>,
    sort: Sort,
    place: u16,
) -> Result<Outcomes<S>, SpaceFault>
    requires group { IsGroup (S.sets space.old) group }
    requires past { HasPast site.now group }
    ensures extends { Extends (S.sets space.old) (S.sets space.new) }
    ensures gives { IfOk result (λ r. Gives site.now.program.now (λ s. store_of (here site.now s) sort place s.top.operands) (S.sets space.old) (S.sets space.new) group r.items.items) }
{
    let stack = &group.top_frame().stack;
    if stack.len() == 0 {
        return illegal(alloc, site.program, &group);
    }
    let is_fit = |slot: Slot| -> bool
        ensures { result ≡ slot_is_of sort slot }
    { slot_is_of(sort, slot) };
    let fits = stack.get(stack.len() - 1).map(space, is_fit)?;
    store_where(alloc, site, space, group, sort, place, &fits)
}
