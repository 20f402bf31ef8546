//! Options and members of the second option's set.

ghost use Rattle.vx_space.specs.Sets.{IsKnown};

use crate::options::option_or_never;
use std::alloc::{AllocError, Global};
use vx_bdd_tools::{one_of, support};
use vx_space::{Space, SpaceFault};

/// The set depends on that option alone.
fn supported<S: Space>(alloc: Global, space: &S, second: S::Id) -> Result<bool, AllocError>
    requires { IsKnown (S.sets space.now) second }
{
    let options = support(alloc, space, second)?;
    Ok(options.as_slice() == [1].as_slice())
}

/// The set has a member, in which that option alone is on.
fn chosen<S: Space>(alloc: Global, space: &S, second: S::Id) -> Result<bool, AllocError>
    requires { IsKnown (S.sets space.now) second }
{
    match one_of(alloc, space, second)? {
        Some(c) => Ok(!c.is_on(0) && c.is_on(1) && c.get(2).is_none()),
        None => Ok(false),
    }
}

/// Never has no member.
fn never_chosen<S: Space>(alloc: Global, space: &S) -> Result<bool, AllocError> {
    Ok(one_of(alloc, space, space.never())?.is_none())
}

/// What trials of sets show over a space of two options.
pub(crate) fn are_right<S: Space>(alloc: Global, space: &mut S) -> Result<bool, SpaceFault> {
    let second = option_or_never(space, 1)?;
    Ok(
        supported(alloc, space, second)?
            && chosen(alloc, space, second)?
            && never_chosen(alloc, space)?,
    )
}
