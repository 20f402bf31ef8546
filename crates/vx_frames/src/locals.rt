//! The locals that values take: two for a long, of which the second can't be read (JVMS 2.6.1).

ghost use Rattle.std.specs.Prelude.{◌≡◌, ◌≤◌, ◌∷◌, [], OnOk, length, replicate};
ghost use Rattle.vx_cond.specs.Cond.{IsCond};
ghost use Rattle.vx_cond.specs.Row.{IsRow};
ghost use Rattle.vx_value.specs.Slot.{slot_cmp};
ghost use Rattle.vx_value.specs.declared.slot.Slot.TheVariants.{Top};
ghost use Rattle.vx_frames.specs.Entering.{AreArguments};
ghost use Rattle.vx_frames.specs.Locals.{AreAppended, AreLocals, ArePut, IsAppended, begins_long};

use std::alloc::{AllocError, Global};
use vx_cond::{Cond, Row};
use vx_space::Space;
use vx_value::Slot;

/// Whether a value begins with a long.
fn begins_long<S: Space>(value: &Cond<Slot, S>) -> bool
    ensures { result ≡ begins_long value.now.leaves }
{
    match value.leaves().first() {
        Some(leaf) => match leaf.value {
            Slot::Long(_) => true,
            _ => false,
        },
        None => false,
    }
}

/// Appends a local that can't be read.
fn put_top<S: Space>(alloc: Global, space: &S, locals: &mut Row<Slot, S>) -> Result<(), AllocError>
    requires { IsRow slot_cmp (S.sets space.now) locals.old }
    ensures { OnOk result (AreAppended (S.sets space.now) locals.old 1 (λ _. Top ∷ []) locals.new) }
{
    let top = Cond::one(alloc, space, Slot::Top, locals.scope())?;
    locals.push(top)?;
    Ok(())
}

/// Appends a value as the locals that it takes.
fn put_value<S: Space>(
    alloc: Global,
    space: &S,
    locals: &mut Row<Slot, S>,
    value: Cond<Slot, S>,
) -> Result<(), AllocError>
    requires row { IsRow slot_cmp (S.sets space.now) locals.old }
    requires value { IsCond slot_cmp (S.sets space.now) value }
    requires scope { value.scope ≡ locals.old.scope }
    ensures { OnOk result (IsAppended (S.sets space.now) locals.old value locals.new) }
{
    let is_long = begins_long(&value);
    locals.push(value)?;
    if !is_long {
        return Ok(());
    }
    put_top(alloc, space, locals)?;
    Ok(())
}

/// Appends so many locals that can't be read.
fn put_tops<S: Space>(
    alloc: Global,
    space: &S,
    locals: &mut Row<Slot, S>,
    count: usize,
) -> Result<(), AllocError>
    requires { IsRow slot_cmp (S.sets space.now) locals.old }
    ensures { OnOk result (AreAppended (S.sets space.now) locals.old count (λ _. replicate count Top) locals.new) }
{
    for _local in 0..count {
        put_top(alloc, space, locals)?;
    }
    Ok(())
}

/// Appends values as the locals that they take, which are so many at most.
fn put_values<S: Space>(
    alloc: Global,
    space: &S,
    locals: &mut Row<Slot, S>,
    values: Vec<Cond<Slot, S>>,
    most: u16,
) -> Result<(), AllocError>
    requires row { IsRow slot_cmp (S.sets space.now) locals.old }
    requires none { locals.old.conds ≡ [] }
    requires values { AreArguments (S.sets space.now) locals.old.scope most values.items }
    ensures within { OnOk result (length locals.new.conds ≤ most) }
    ensures put { OnOk result (ArePut (S.sets space.now) locals.old.scope values.items locals.new) }
{
    for value in values {
        put_value(alloc, space, locals, value)?;
    }
    Ok(())
}

/// Makes so many locals, which begin with values; the others can't be read.
pub(crate) fn put_locals<S: Space>(
    alloc: Global,
    space: &S,
    locals: &mut Row<Slot, S>,
    values: Vec<Cond<Slot, S>>,
    count: u16,
) -> Result<(), AllocError>
    requires row { IsRow slot_cmp (S.sets space.now) locals.old }
    requires none { locals.old.conds ≡ [] }
    requires values { AreArguments (S.sets space.now) locals.old.scope count values.items }
    ensures { OnOk result (AreLocals (S.sets space.now) locals.old.scope count values.items locals.new) }
{
    put_values(alloc, space, locals, values, count)?;
    let rest = usize::from(count) - locals.len();
    put_tops(alloc, space, locals, rest)?;
    Ok(())
}
