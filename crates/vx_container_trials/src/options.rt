//! Sets of options.

ghost use Rattle.std.specs.Prelude.{IfOk};
ghost use Rattle.vx_space.specs.Sets.{IsKnown, Extends};

use vx_space::{Space, SpaceFault};

/// Where an option is on: nowhere, if there is no such option.
pub(crate) fn option_or_never<S: Space>(space: &mut S, i: u32) -> Result<S::Id, SpaceFault>
    ensures known { IfOk result (IsKnown (S.sets space.new)) }
    ensures extends { Extends (S.sets space.old) (S.sets space.new) }
{
    if i < space.options() {
        space.option(i)
    } else {
        Ok(space.never())
    }
}

/// Where two options are equal.
fn equality<S: Space>(space: &mut S, i: u32, j: u32) -> Result<S::Id, SpaceFault>
    ensures known { IfOk result (IsKnown (S.sets space.new)) }
    ensures extends { Extends (S.sets space.old) (S.sets space.new) }
{
    let x = option_or_never(space, i)?;
    let y = option_or_never(space, j)?;
    let either = space.or(x, y)?;
    let both = space.and(x, y)?;
    let differ = space.minus(either, both)?;
    space.minus(space.always(), differ)
}

/// Where the first option is equal to the third, and the second to the fourth.
pub(crate) fn two_equalities<S: Space>(space: &mut S) -> Result<S::Id, SpaceFault>
    ensures { IfOk result (IsKnown (S.sets space.new)) }
{
    let first = equality(space, 0, 2)?;
    let second = equality(space, 1, 3)?;
    space.and(first, second)
}
