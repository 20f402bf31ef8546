//! Local variables that are written (JVMS 2.6.1).

ghost use Rattle.std.specs.Prelude.{◌≡◌, ◌<◌, ◌≤◌, IsTrue, OnOk, List, Bool, false, length, slice_set};
ghost use Rattle.std.specs.List.{list_any};
ghost use Rattle.vx_value.specs.Slot.{slot_cmp};
ghost use Rattle.vx_space.specs.Sets.{Extends, Sets};
ghost use Rattle.vx_cond.specs.Cond.{IsCond};
ghost use Rattle.vx_cond.specs.Row.{IsRow};
ghost use Rattle.vx_cond.specs.Slots.{slot_at, slots_at};
ghost use Rattle.vx_java.specs.declared.operation.Sort.TheVariants.{Long as LongSort};
ghost use Rattle.vx_families.specs.Sorts.{slot_is_of};
ghost use Rattle.vx_locals.specs.Slots.{AreLocals, stored, unless_long, without_half};

use std::alloc::Global;
use vx_cond::{Cond, Row};
use vx_families::slot_is_of;
use vx_java::Sort;
use vx_space::{Space, SpaceFault};
use vx_value::Slot;

/// The first half of a long cannot be read once its second half is overwritten.
fn unless_long(slot: Slot) -> Slot
    ensures { result ≡ unless_long slot }
{
    match slot {
        Slot::Long(_) => Slot::Top,
        other => other,
    }
}

/// Puts a value into the local of a place, where there is one.
fn put_local<S: Space>(locals: &mut Row<Slot, S>, place: usize, value: Cond<Slot, S>)
    ensures { locals.new ≡ record locals.old { conds = slice_set locals.old.conds place value } }
{
    if place < locals.len() {
        locals.set(place, value);
    }
}

/// Whether a local is a long at some configuration.
fn holds_long<S: Space>(local: &Cond<Slot, S>) -> bool
    ensures { result ≡ list_any (λ leaf. slot_is_of LongSort leaf.value) local.now.leaves }
{
    local
        .leaves()
        .iter()
        .any(|leaf| slot_is_of(Sort::Long, leaf.value))
}

/// Whether the local before a place is a long at some configuration.
fn is_behind_long<S: Space>(locals: &Row<Slot, S>, place: usize) -> bool
    ensures within { IsTrue result → (0 < place) × (place ≤ length locals.now.conds) }
    ensures none { result ≡ false → (sets : Sets S.Id) (c : List Bool) → without_half (slots_at sets locals.now c) place ≡ slots_at sets locals.now c }
{
    if place == 0 {
        return false;
    }
    if locals.len() < place {
        return false;
    }
    holds_long(locals.get(place - 1))
}

/// Makes the local before a place unreadable where it is a long. Where it is none, nothing is written.
fn free_half<S: Space>(
    space: &mut S,
    locals: &mut Row<Slot, S>,
    place: usize,
) -> Result<(), SpaceFault>
    requires row { IsRow slot_cmp (S.sets space.old) locals.old }
    ensures extends { Extends (S.sets space.old) (S.sets space.new) }
    ensures ok { OnOk result (AreLocals (S.sets space.old) (S.sets space.new) locals.old (λ c. without_half (slots_at (S.sets space.old) locals.old c) place) locals.new) }
{
    if !is_behind_long(locals, place) {
        return Ok(());
    }
    let half = locals.get(place - 1).map(space, unless_long)?;
    locals.set(place - 1, half);
    Ok(())
}

/// Puts a value of a sort into the local of a place. A long takes the place behind it too, which can't be read, and a long
/// whose second half stood at the place can't be read any more.
pub(crate) fn write_local<S: Space>(
    alloc: Global,
    space: &mut S,
    locals: &mut Row<Slot, S>,
    sort: Sort,
    place: u16,
    value: Cond<Slot, S>,
) -> Result<(), SpaceFault>
    requires row { IsRow slot_cmp (S.sets space.old) locals.old }
    requires value { IsCond slot_cmp (S.sets space.old) value }
    requires scope { value.scope ≡ locals.old.scope }
    ensures extends { Extends (S.sets space.old) (S.sets space.new) }
    ensures ok { OnOk result (AreLocals (S.sets space.old) (S.sets space.new) locals.old (λ c. stored sort (slots_at (S.sets space.old) locals.old c) place (slot_at (S.sets space.old) value c)) locals.new) }
{
    free_half(space, locals, usize::from(place))?;
    put_local(locals, usize::from(place), value);
    match sort {
        Sort::Int => Ok(()),
        Sort::Reference => Ok(()),
        Sort::Long => {
            let half = Cond::one(alloc, space, Slot::Top, locals.scope())?;
            put_local(locals, usize::from(place) + 1, half);
            Ok(())
        }
    }
}
