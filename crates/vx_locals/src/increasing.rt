//! Local variables that are increased (JVMS 6.5 iinc).

ghost use Rattle.std.specs.Prelude.{◌≡◌, ◌<◌, IfOk, List, Bool, Some, true, length};
ghost use Rattle.std.specs.Ordering.{bool_cmp};
ghost use Rattle.vx_value.specs.declared.slot.Slot.TheVariants.{Top};
ghost use Rattle.vx_list.specs.Places.{item_or};
ghost use Rattle.vx_space.specs.Sets.{Extends};
ghost use Rattle.vx_cond.specs.Cond.{IsCond, cond_at};
ghost use Rattle.vx_cond.specs.Slots.{slots_at};
ghost use Rattle.vx_group.specs.Group.{IsGroup, path_of};
ghost use Rattle.vx_java.specs.Locals.{increase as increase_of};
ghost use Rattle.vx_java.specs.Machine.{Top as TopValue};
ghost use Rattle.vx_java.specs.declared.operation.Sort.TheVariants.{Int as IntSort};
ghost use Rattle.vx_group_states.specs.Sites.{Gives, HasPast, here};
ghost use Rattle.vx_families.specs.Sorts.{slot_is_of};
ghost use Rattle.vx_locals.specs.Slots.{increased};

use std::alloc::Global;
use vx_cond::Cond;
use vx_families::slot_is_of;
use vx_group::Group;
use vx_group_states::{Site, illegal, pass_where};
use vx_java::Sort;
use vx_outcome::Outcomes;
use vx_space::{Space, SpaceFault};
use vx_value::Slot;

fn increased(by: i32, slot: Slot) -> Slot
    ensures { result ≡ increased by slot }
{
    match slot {
        Slot::Int(n) => Slot::Int(n.wrapping_add(by)),
        other => other,
    }
}

/// Adds a number to a local, and goes past the instruction where it is an int.
fn increase_where<S: Space>(
    alloc: Global,
    site: &Site,
    space: &mut S,
    group: Group<S>,
    place: u16,
    by: i32,
    fits: &Cond<bool, S>,
) -> Result<Outcomes<S>, SpaceFault>
    requires group { IsGroup (S.sets space.old) group }
    requires past { HasPast site.now group }
    requires one { place < length group.top.locals.conds }
    requires fits { IsCond bool_cmp (S.sets space.old) fits.now }
    requires scope { fits.now.scope ≡ path_of group }
    requires at { (c : List Bool) → (S.sets space.old).test (path_of group) c ≡ true → cond_at (S.sets space.old) fits.now c ≡ Some (slot_is_of IntSort (item_or (slots_at (S.sets space.old) group.top.locals c) place Top)) }
    ensures extends { Extends (S.sets space.old) (S.sets space.new) }
    ensures gives { IfOk result (λ r. Gives site.now.program.now (λ s. increase_of (here site.now s) place by (item_or s.top.locals place TopValue)) (S.sets space.old) (S.sets space.new) group r.items.items) }
{
    let (below, mut frame) = group.take_top();
    let more = |slot: Slot| -> Slot
        ensures { result ≡ increased by slot }
    { increased(by, slot) };
    let value = frame.locals.get(usize::from(place)).map(space, more)?;
    frame.locals.set(usize::from(place), value);
    pass_where(alloc, site, space, below.put_top(frame), fits.leaves())
}

/// Adds a number to a local where it is an int.
pub(crate) fn increase<S: Space>(
    alloc: Global,
    site: &Site,
    space: &mut S,
    group: Group<S>,
    place: u16,
    by: i32,
) -> Result<Outcomes<S>, SpaceFault>
    requires group { IsGroup (S.sets space.old) group }
    requires past { HasPast site.now group }
    ensures extends { Extends (S.sets space.old) (S.sets space.new) }
    ensures gives { IfOk result (λ r. Gives site.now.program.now (λ s. increase_of (here site.now s) place by (item_or s.top.locals place TopValue)) (S.sets space.old) (S.sets space.new) group r.items.items) }
{
    let locals = &group.top_frame().locals;
    if locals.len() <= usize::from(place) {
        return illegal(alloc, site.program, &group);
    }
    let is_int = |slot: Slot| -> bool
        ensures { result ≡ slot_is_of IntSort slot }
    { slot_is_of(Sort::Int, slot) };
    let fits = locals.get(usize::from(place)).map(space, is_int)?;
    increase_where(alloc, site, space, group, place, by, &fits)
}
