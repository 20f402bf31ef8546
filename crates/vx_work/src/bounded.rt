//! Operations within some work.

ghost use Rattle.std.specs.Prelude.{◌≤◌, ◌&&◌, ◌||◌, not, IfOk, IfSome};
ghost use Rattle.vx_space.specs.Sets.{Extends, IsKnown, IsSet};

use crate::pairs::pairs_within;
use crate::work::Work;
use std::alloc::Global;
use vx_space::{Space, SpaceFault};

/// Whether an operation on two sets is within the work that is left, which it takes; where it isn't, nothing is left.
fn take_pairs<S: Space>(
    alloc: Global,
    space: &S,
    work: &mut Work,
    one: S::Id,
    other: S::Id,
) -> Result<bool, SpaceFault>
    requires one { IsKnown (S.sets space.now) one }
    requires other { IsKnown (S.sets space.now) other }
    ensures { work.new.left ≤ work.old.left }
{
    match pairs_within(alloc, space, work.left, one, other)? {
        Some(pairs) => {
            work.spend(pairs);
            Ok(true)
        }
        None => {
            *work = Work::of(0);
            Ok(false)
        }
    }
}

/// The intersection; none where it would be more than the work that is left, and then nothing is made.
pub fn and_within<S: Space>(
    alloc: Global,
    space: &mut S,
    work: &mut Work,
    one: S::Id,
    other: S::Id,
) -> Result<Option<S::Id>, SpaceFault>
    requires one { IsKnown (S.sets space.old) one }
    requires other { IsKnown (S.sets space.old) other }
    ensures extends { Extends (S.sets space.old) (S.sets space.new) }
    ensures work { work.new.left ≤ work.old.left }
    ensures set { IfOk result (λ r. IfSome r (λ id. IsSet (S.sets space.new) id (λ c. (S.sets space.old).test one c && (S.sets space.old).test other c))) }
{
    if !take_pairs(alloc, space, work, one, other)? {
        return Ok(None);
    }
    let both = space.and(one, other)?;
    Ok(Some(both))
}

/// The union; none where it would be more than the work that is left, and then nothing is made.
pub fn or_within<S: Space>(
    alloc: Global,
    space: &mut S,
    work: &mut Work,
    one: S::Id,
    other: S::Id,
) -> Result<Option<S::Id>, SpaceFault>
    requires one { IsKnown (S.sets space.old) one }
    requires other { IsKnown (S.sets space.old) other }
    ensures extends { Extends (S.sets space.old) (S.sets space.new) }
    ensures work { work.new.left ≤ work.old.left }
    ensures set { IfOk result (λ r. IfSome r (λ id. IsSet (S.sets space.new) id (λ c. (S.sets space.old).test one c || (S.sets space.old).test other c))) }
{
    if !take_pairs(alloc, space, work, one, other)? {
        return Ok(None);
    }
    let either = space.or(one, other)?;
    Ok(Some(either))
}

/// The difference; none where it would be more than the work that is left, and then nothing is made.
pub fn minus_within<S: Space>(
    alloc: Global,
    space: &mut S,
    work: &mut Work,
    one: S::Id,
    other: S::Id,
) -> Result<Option<S::Id>, SpaceFault>
    requires one { IsKnown (S.sets space.old) one }
    requires other { IsKnown (S.sets space.old) other }
    ensures extends { Extends (S.sets space.old) (S.sets space.new) }
    ensures work { work.new.left ≤ work.old.left }
    ensures set { IfOk result (λ r. IfSome r (λ id. IsSet (S.sets space.new) id (λ c. (S.sets space.old).test one c && not ((S.sets space.old).test other c)))) }
{
    if !take_pairs(alloc, space, work, one, other)? {
        return Ok(None);
    }
    let rest = space.minus(one, other)?;
    Ok(Some(rest))
}
