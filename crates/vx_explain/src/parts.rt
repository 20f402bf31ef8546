//! Sets divided by an option, and put together again.

ghost use Rattle.std.specs.Prelude.{◌≡◌, ◌<◌, ◌&&◌, ◌||◌, not, IfOk, IfSome, IfNone, ◌⊎◌, if◌then◌else◌};
ghost use Rattle.vx_space.specs.Config.{value_of};
ghost use Rattle.vx_space.specs.Sets.{Extends, IsKnown, IsSet};
ghost use Rattle.vx_bdd_tools.specs.Steps.{IsFreeBelow};
ghost use Rattle.vx_explain.specs.Between.{AreParts, IsFirst};

use vx_space::{Space, SpaceFault};

/// The least option on which one of two sets depends; none where the second is never or always.
pub fn first_option<S: Space>(space: &S, least: S::Id, most: S::Id) -> Option<u32>
    requires least { IsKnown (S.sets space.now) least }
    requires most { IsKnown (S.sets space.now) most }
    ensures none { IfNone result ((most ≡ (S.sets space.now).never) ⊎ (most ≡ (S.sets space.now).always)) }
    ensures some { IfSome result (IsFirst (S.sets space.now) least most) }
{
    let Some(top) = space.top(most) else {
        return None;
    };
    match space.top(least) {
        Some(other) if other.0 < top.0 => Some(other.0),
        _ => Some(top.0),
    }
}

/// A set with an option off and with it on. The set depends on no option before.
pub fn parts<S: Space>(space: &S, set: S::Id, option: u32) -> (S::Id, S::Id)
    requires known { IsKnown (S.sets space.now) set }
    requires free { IsFreeBelow (S.sets space.now) set option }
    ensures { AreParts (S.sets space.now) set option result.0 result.1 }
{
    match space.top(set) {
        Some(top) if top.0 == option => (top.1, top.2),
        _ => (set, set),
    }
}

/// What two sets have outside of two others, joined.
pub fn remaining<S: Space>(
    space: &mut S,
    low: S::Id,
    low_done: S::Id,
    high: S::Id,
    high_done: S::Id,
) -> Result<S::Id, SpaceFault>
    requires low { IsKnown (S.sets space.old) low }
    requires low_done { IsKnown (S.sets space.old) low_done }
    requires high { IsKnown (S.sets space.old) high }
    requires high_done { IsKnown (S.sets space.old) high_done }
    ensures extends { Extends (S.sets space.old) (S.sets space.new) }
    ensures ok { IfOk result (λ r. IsSet (S.sets space.new) r (λ c. ((S.sets space.old).test low c && not ((S.sets space.old).test low_done c)) || ((S.sets space.old).test high c && not ((S.sets space.old).test high_done c)))) }
{
    let low = space.minus(low, low_done)?;
    let high = space.minus(high, high_done)?;
    space.or(low, high)
}

/// The configurations of one set where an option is off, those of another where it is on, and those of a third.
pub fn joined<S: Space>(
    space: &mut S,
    option: u32,
    low: S::Id,
    high: S::Id,
    free: S::Id,
) -> Result<S::Id, SpaceFault>
    requires option { option < (S.sets space.old).options }
    requires low { IsKnown (S.sets space.old) low }
    requires high { IsKnown (S.sets space.old) high }
    requires free { IsKnown (S.sets space.old) free }
    ensures extends { Extends (S.sets space.old) (S.sets space.new) }
    ensures ok { IfOk result (λ r. IsSet (S.sets space.new) r (λ c. (if value_of c option then (S.sets space.old).test high c else (S.sets space.old).test low c) || (S.sets space.old).test free c)) }
{
    let on = space.option(option)?;
    let inside = space.and(high, on)?;
    let outside = space.minus(low, on)?;
    let sides = space.or(inside, outside)?;
    space.or(sides, free)
}

/// All outside of a set.
pub fn complement<S: Space>(space: &mut S, set: S::Id) -> Result<S::Id, SpaceFault>
    requires set { IsKnown (S.sets space.old) set }
    ensures extends { Extends (S.sets space.old) (S.sets space.new) }
    ensures ok { IfOk result (λ r. IsSet (S.sets space.new) r (λ c. not ((S.sets space.old).test set c))) }
{
    let always = space.always();
    space.minus(always, set)
}
