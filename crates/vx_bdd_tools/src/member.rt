//! A member of a set.

ghost use Rattle.std.specs.Prelude.{◌≡◌, ◌≢◌, IfOk, IfSome, IsNone, ◌↔◌};
ghost use Rattle.vx_space.specs.Sets.{IsKnown};
ghost use Rattle.vx_bdd_tools.specs.Members.{IsMember, IsChosen};

use std::alloc::{AllocError, Global};
use vx_space::{Config, Space};

/// A configuration of the set, with one value per option. `None` exactly for never.
pub fn one_of<S: Space>(alloc: Global, space: &S, id: S::Id) -> Result<Option<Config>, AllocError>
    requires { IsKnown (S.sets space.now) id }
    ensures none { IfOk result (λ r. IsNone r ↔ (id ≡ (S.sets space.now).never)) }
    ensures some { IfOk result (λ r. IfSome r (IsMember (S.sets space.now) id)) }
{
    if space.is_never(id) {
        return Ok(None);
    }
    let values = member_values(alloc, space, id)?;
    Ok(Some(Config::new(alloc, values.as_slice())?))
}

/// The values of a configuration of a set that isn't never.
fn member_values<S: Space>(alloc: Global, space: &S, id: S::Id) -> Result<Vec<bool>, AllocError>
    requires known { IsKnown (S.sets space.now) id }
    requires nonempty { id ≢ (S.sets space.now).never }
    ensures { IfOk result (λ v. IsMember (S.sets space.now) id v.items) }
{
    let mut values = vec![in alloc; false; space.options() as usize]?;
    let mut at = id;
    let mut below: u32 = 0;
    while let Some(top) = space.top(at) {
        let chosen = choose_part(space, top.1, top.2);
        at = chosen.0;
        values[top.0 as usize] = chosen.1;
        below = top.0 + 1;
    }
    Ok(values)
}

/// The part with an option off, or the one with it on where that is never.
fn choose_part<S: Space>(space: &S, low: S::Id, high: S::Id) -> (S::Id, bool)
    requires { IsKnown (S.sets space.now) low }
    ensures { IsChosen (S.sets space.now) low high result.0 result.1 }
{
    if space.is_never(low) {
        (high, true)
    } else {
        (low, false)
    }
}
