//! A few terms for a set of which only the configurations in a scope count (Minato 1992, Morreale 1970): they hold at least in one
//! set and at most in another.

ghost use Rattle.std.specs.Prelude.{◌≡◌, ◌<◌, ◌≤◌, ◌+◌, ◌++◌, ◌∷◌, [], length, IfOk, MatchBool, MatchOption, OnOk};
ghost use Rattle.vx_space.specs.Sets.{Extends, IsKnown};
ghost use Rattle.vx_bdd_tools.specs.Steps.{IsFreeBelow};
ghost use Rattle.vx_explain.specs.declared.literal.Literal.{Literal};
ghost use Rattle.vx_explain.specs.Between.{AreMany, ArePut, IsFirst, IsWithin, if_few, side_terms_from, terms_between, terms_from};

use crate::literal::{Literal, Term, with_literal};
use crate::parts::{first_option, joined, parts, remaining};
use std::alloc::{AllocError, Global};
use vx_list::Items;
use vx_space::{Space, SpaceFault};

/// How many terms a rule may have.
pub const MOST_TERMS: usize = 32;

/// Puts a term, unless there are as many as there may be.
fn push_term(alloc: Global, terms: &mut Vec<Term>, path: &[Literal]) -> Result<bool, AllocError>
    requires { length terms.old.items ≤ 32 }
    ensures term { IfOk result (λ there. MatchBool there (terms.new.items ≡ terms.old.items ++ path.now ∷ []) (32 ≤ length terms.old.items)) }
    ensures few { OnOk result (length terms.new.items ≤ 32) }
{
    if terms.len() >= MOST_TERMS {
        return Ok(false);
    }
    let term = Vec::from_slice(alloc, path)?;
    terms.push(Items::of(term))?;
    Ok(true)
}

/// The term of a path, which is all that is asked for where the greatest set is always.
fn whole_term<S: Space>(
    alloc: Global,
    space: &S,
    terms: &mut Vec<Term>,
    path: &[Literal],
) -> Result<Option<S::Id>, AllocError>
    requires { length terms.old.items ≤ 32 }
    ensures few { OnOk result (length terms.new.items ≤ 32) }
    ensures term { IfOk result (λ r. MatchOption r (32 ≤ length terms.old.items) (λ id. (id ≡ (S.sets space.now).always) × (terms.new.items ≡ terms.old.items ++ path.now ∷ []))) }
{
    if push_term(alloc, terms, path)? {
        return Ok(Some(space.always()));
    }
    Ok(None)
}

/// Puts the terms for a least and a greatest set, each of them with the literals of a path before it, and gives the set of the
/// configurations at which one of them holds; none where there would be too many terms. The sets depend on no option before
/// `first`.
#[cycle(between)]
fn terms_between<S: Space>(
    alloc: Global,
    space: &mut S,
    terms: &mut Vec<Term>,
    path: &[Literal],
    first: u32,
    least: S::Id,
    most: S::Id,
) -> Result<Option<S::Id>, SpaceFault>
    requires few { length terms.old.items ≤ 32 }
    requires first { first ≤ (S.sets space.old).options }
    requires least { IsKnown (S.sets space.old) least }
    requires most { IsKnown (S.sets space.old) most }
    requires free_least { IsFreeBelow (S.sets space.old) least first }
    requires free_most { IsFreeBelow (S.sets space.old) most first }
    requires within { IsWithin (S.sets space.old) least most }
    ensures extends { Extends (S.sets space.old) (S.sets space.new) }
    ensures few { OnOk result (length terms.new.items ≤ 32) }
    ensures terms { IfOk result (λ r. MatchOption r (AreMany (terms_from (S.sets space.old) first least most) terms.old.items) (ArePut (S.sets space.new) path.now (terms_from (S.sets space.old) first least most) terms.old.items terms.new.items)) }
{
    if space.is_never(least) {
        return Ok(Some(least));
    }
    let Some(option) = first_option(space, least, most) else {
        return Ok(whole_term(alloc, space, terms, path)?);
    };
    terms_by(alloc, space, terms, path, option, least, most)
}

/// The same by the first option that is asked: terms that need it off, terms that need it on, and terms for the rest that don't
/// ask it.
#[cycle(between)]
fn terms_by<S: Space>(
    alloc: Global,
    space: &mut S,
    terms: &mut Vec<Term>,
    path: &[Literal],
    option: u32,
    least: S::Id,
    most: S::Id,
) -> Result<Option<S::Id>, SpaceFault>
    requires few { length terms.old.items ≤ 32 }
    requires least { IsKnown (S.sets space.old) least }
    requires most { IsKnown (S.sets space.old) most }
    requires within { IsWithin (S.sets space.old) least most }
    requires first { IsFirst (S.sets space.old) least most option }
    ensures extends { Extends (S.sets space.old) (S.sets space.new) }
    ensures few { OnOk result (length terms.new.items ≤ 32) }
    ensures terms { IfOk result (λ r. MatchOption r (AreMany (terms_from (S.sets space.old) option least most) terms.old.items) (ArePut (S.sets space.new) path.now (terms_from (S.sets space.old) option least most) terms.old.items terms.new.items)) }
{
    let least = parts(space, least, option);
    let most = parts(space, most, option);
    let off = Literal { option, on: false };
    let Some(low) = side_terms(alloc, space, terms, path, off, least.0, most.0, most.1)? else {
        return Ok(None);
    };
    let on = Literal { option, on: true };
    let Some(high) = side_terms(alloc, space, terms, path, on, least.1, most.1, most.0)? else {
        return Ok(None);
    };
    let rest = remaining(space, least.0, low, least.1, high)?;
    let both = space.and(most.0, most.1)?;
    let Some(free) = terms_between(alloc, space, terms, path, option + 1, rest, both)? else {
        return Ok(None);
    };
    Ok(Some(joined(space, option, low, high, free)?))
}

/// Terms that need a literal, for what a least set has outside of what the other side allows. The sets depend on no option up to
/// the literal's.
#[cycle(between)]
fn side_terms<S: Space>(
    alloc: Global,
    space: &mut S,
    terms: &mut Vec<Term>,
    path: &[Literal],
    literal: Literal,
    least: S::Id,
    most: S::Id,
    other: S::Id,
) -> Result<Option<S::Id>, SpaceFault>
    requires few { length terms.old.items ≤ 32 }
    requires literal { literal.option < (S.sets space.old).options }
    requires least { IsKnown (S.sets space.old) least }
    requires most { IsKnown (S.sets space.old) most }
    requires other { IsKnown (S.sets space.old) other }
    requires free_least { IsFreeBelow (S.sets space.old) least (literal.option + 1) }
    requires free_most { IsFreeBelow (S.sets space.old) most (literal.option + 1) }
    requires free_other { IsFreeBelow (S.sets space.old) other (literal.option + 1) }
    requires within { IsWithin (S.sets space.old) least most }
    ensures extends { Extends (S.sets space.old) (S.sets space.new) }
    ensures few { OnOk result (length terms.new.items ≤ 32) }
    ensures terms { IfOk result (λ r. MatchOption r (AreMany (side_terms_from (S.sets space.old) (literal.option + 1) least other most) terms.old.items) (ArePut (S.sets space.new) (path.now ++ literal ∷ []) (side_terms_from (S.sets space.old) (literal.option + 1) least other most) terms.old.items terms.new.items)) }
{
    let only = space.minus(least, other)?;
    let longer = with_literal(alloc, path, literal)?;
    terms_between(
        alloc,
        space,
        terms,
        longer.as_slice(),
        literal.option + 1,
        only,
        most,
    )
}

/// The terms of Minato and Morreale for a least and a greatest set, of which one holds at least in the one and at most in the
/// other; none where there are more than 32.
pub fn few_terms<S: Space>(
    alloc: Global,
    space: &mut S,
    least: S::Id,
    most: S::Id,
) -> Result<Option<Items<Term>>, SpaceFault>
    requires least { IsKnown (S.sets space.old) least }
    requires most { IsKnown (S.sets space.old) most }
    requires within { IsWithin (S.sets space.old) least most }
    ensures extends { Extends (S.sets space.old) (S.sets space.new) }
    ensures terms { IfOk result (λ r. r ≡ if_few (terms_between (S.sets space.old).options 0 ((S.sets space.old).test least) ((S.sets space.old).test most))) }
{
    let mut terms = Vec::new(alloc);
    match terms_between(alloc, space, &mut terms, &[], 0, least, most)? {
        Some(_) => Ok(Some(Items::of(terms))),
        None => Ok(None),
    }
}
