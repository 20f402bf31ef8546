//! Conditional values: 1 where the first option is on, and 2 elsewhere.

ghost use Rattle.std.specs.Prelude.{IfOk};
ghost use Rattle.std.specs.Ordering.{nat_cmp};
ghost use Rattle.vx_space.specs.Sets.{Extends, IsKnown};
ghost use Rattle.vx_cond.specs.Cond.{IsCond, AreDisjoint};

use crate::options::option_or_never;
use std::alloc::{AllocError, Global};
use vx_cond::{Cond, Projects};
use vx_space::{Config, Space, SpaceFault};

/// The configurations where the first option is on, and the others.
#[tactic(auto, using(crate::proofs::Trials::trial_words))]
pub(crate) fn sides<S: Space>(space: &mut S) -> Result<(S::Id, S::Id), SpaceFault>
    ensures extends { Extends (S.sets space.old) (S.sets space.new) }
    ensures first { IfOk result (λ r. IsKnown (S.sets space.new) r.0) }
    ensures second { IfOk result (λ r. IsKnown (S.sets space.new) r.1) }
    ensures apart { IfOk result (λ r. AreDisjoint (S.sets space.new) r.0 r.1) }
{
    let on = option_or_never(space, 0)?;
    let off = space.minus(space.always(), on)?;
    Ok((on, off))
}

/// Two values, the first where the first option is on, the second elsewhere.
#[tactic(auto, using(crate::proofs::Trials::trial_words))]
pub(crate) fn choice<S: Space>(
    alloc: Global,
    space: &mut S,
    first: u64,
    second: u64,
) -> Result<Cond<u64, S>, SpaceFault>
    ensures extends { Extends (S.sets space.old) (S.sets space.new) }
    ensures valid { IfOk result (IsCond nat_cmp (S.sets space.new)) }
{
    let (on, off) = sides(space)?;
    let here = Cond::one(alloc, space, first, on)?;
    let there = Cond::one(alloc, space, second, off)?;
    here.join(space, &there)
}

/// Whether a conditional value is the first where the first option is on, and the second where it is off.
fn is_at<S: Space>(
    alloc: Global,
    space: &S,
    cond: &Cond<u64, S>,
    first: Option<u64>,
    second: Option<u64>,
) -> Result<bool, AllocError>
    requires { IsCond nat_cmp (S.sets space.now) cond.now }
{
    let on = Config::new(alloc, &[true])?;
    let off = Config::new(alloc, &[])?;
    Ok(cond.at(space, &on) == first && cond.at(space, &off) == second)
}

/// The values of both sides stand under the two halves.
#[tactic(auto, using(crate::proofs::Trials::trial_words))]
fn joined<S: Space>(alloc: Global, space: &mut S) -> Result<bool, SpaceFault> {
    let both = choice(alloc, space, 1, 2)?;
    let is_at = is_at(alloc, space, &both, Some(1), Some(2))?;
    let values = both.leaves();
    Ok(is_at && values.len() == 2 && values[0].value == 1 && values[1].value == 2)
}

/// A function that makes the values equal leaves one leaf.
#[tactic(auto, using(crate::proofs::Trials::trial_words))]
fn mapped<S: Space>(alloc: Global, space: &mut S) -> Result<bool, SpaceFault> {
    let both = choice(alloc, space, 1, 2)?;
    let zero = both.map(space, |x: u64| x - x)?;
    let always = space.always();
    let zeros = zero.leaves();
    Ok(
        zeros.len() == 1
            && zeros[0].value == 0
            && zeros[0].condition == always
            && zero.scope() == always,
    )
}

/// A function of two values takes them where they meet.
#[tactic(auto, using(crate::proofs::Trials::trial_words))]
fn zipped<S: Space>(alloc: Global, space: &mut S) -> Result<bool, SpaceFault> {
    let both = choice(alloc, space, 1, 2)?;
    let ten = both.map(space, |_x: u64| 10)?;
    let sum = both.zip(space, &ten, |x: u64, y: u64| x.saturating_add(y))?;
    Ok(is_at(alloc, space, &sum, Some(11), Some(12))?)
}

/// The ids held are that of the scope and those of the leaves.
#[tactic(auto, using(crate::proofs::Trials::trial_words))]
fn ids_held<S: Space>(alloc: Global, space: &mut S) -> Result<bool, SpaceFault> {
    let both = choice(alloc, space, 1, 2)?;
    let mut ids = Vec::new(alloc);
    Projects::ids_out(&both, &mut ids)?;
    Ok(ids.len() == 3 && ids[0] == space.always())
}

/// A part has no value outside, and a value that is put over another holds in its scope alone.
#[tactic(auto, using(crate::proofs::Trials::trial_words))]
fn overwritten<S: Space>(alloc: Global, space: &mut S) -> Result<bool, SpaceFault> {
    let both = choice(alloc, space, 1, 2)?;
    let first = option_or_never(space, 0)?;
    let part = both.restrict(space, first)?;
    let is_part = is_at(alloc, space, &part, Some(1), None)?;
    let three = part.map(space, |_x: u64| 3)?;
    let mixed = both.overwrite(space, &three)?;
    Ok(is_part && is_at(alloc, space, &mixed, Some(3), Some(2))?)
}

/// A value in no configuration has no leaf.
fn nowhere<S: Space>(alloc: Global, space: &S) -> Result<bool, AllocError> {
    let nowhere: Cond<u64, S> = Cond::one(alloc, space, 1, space.never())?;
    Ok(nowhere.leaves().is_empty())
}

/// What trials of conditional values show over a space with an option.
pub(crate) fn are_right<S: Space>(alloc: Global, space: &mut S) -> Result<bool, SpaceFault> {
    Ok(
        joined(alloc, space)?
            && mapped(alloc, space)?
            && zipped(alloc, space)?
            && ids_held(alloc, space)?
            && overwritten(alloc, space)?
            && nowhere(alloc, space)?,
    )
}
