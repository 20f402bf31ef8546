//! Sets of options.

ghost use Rattle.std.specs.Prelude.{IfOk};
ghost use Rattle.vx_space.specs.Sets.{IsKnown, Extends};

use vx_space::{Space, SpaceFault};

/// Where the first option is on: nowhere, if there is no option.
pub(crate) fn first_option<S: Space>(space: &mut S) -> Result<S::Id, SpaceFault>
    ensures known { IfOk result (IsKnown (S.sets space.new)) }
    ensures extends { Extends (S.sets space.old) (S.sets space.new) }
{
    if 0 < space.options() {
        space.option(0)
    } else {
        Ok(space.never())
    }
}
