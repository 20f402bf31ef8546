//! The rule of a set: the least of four, of the terms of the set and of those of its complement, by the recursion alone and by literals
//! first.

ghost use Rattle.std.specs.Prelude.{◌≡◌, ◌&&◌, ◌||◌, not, IfOk};
ghost use Rattle.vx_space.specs.Sets.{Extends, IsKnown, IsSet};
ghost use Rattle.vx_explain.specs.Between.{IsWithin};
ghost use Rattle.vx_explain.specs.Candidates.{least_rule, least_with, lesser, made};
ghost use Rattle.vx_explain.specs.Scopes.{rule_within};

use crate::lengths::is_less;
use crate::literal::Term;
use crate::literals::{first_literals, terms_behind};
use crate::parts::complement;
use crate::rule::{Rule, none_of};
use crate::terms::few_terms;
use std::alloc::{AllocError, Global};
use vx_list::Items;
use vx_space::{Space, SpaceFault};

/// The rule that one of some terms holds, or that none does; none where there are no terms.
fn made(alloc: Global, denies: bool, terms: Option<Items<Term>>) -> Result<Option<Rule>, AllocError>
    ensures { IfOk result (λ r. r ≡ made denies terms) }
{
    let Some(terms) = terms else {
        return Ok(None);
    };
    if !denies {
        return Ok(Some(Rule::AnyOf(terms)));
    }
    let rule = none_of(alloc, terms.as_slice())?;
    Ok(Some(rule))
}

/// The rule that is there; of two the lesser one, or else the first.
fn lesser(alloc: Global, one: Option<Rule>, other: Option<Rule>) -> Result<Option<Rule>, AllocError>
    ensures { IfOk result (λ r. r ≡ lesser one other) }
{
    let Some(first) = one else {
        return Ok(other);
    };
    let Some(second) = other else {
        return Ok(Some(first));
    };
    if is_less(alloc, &second, &first)? {
        return Ok(Some(second));
    }
    Ok(Some(first))
}

/// The lesser one of a rule and that which some terms make.
fn lesser_made(
    alloc: Global,
    best: Option<Rule>,
    denies: bool,
    terms: Option<Items<Term>>,
) -> Result<Option<Rule>, AllocError>
    ensures { IfOk result (λ r. r ≡ lesser best (made denies terms)) }
{
    let rule = made(alloc, denies, terms)?;
    lesser(alloc, best, rule)
}

/// The least of a rule and of the two that terms between two sets make: by the recursion alone, and by literals first, where there are some.
fn least_with<S: Space>(
    alloc: Global,
    space: &mut S,
    best: Option<Rule>,
    denies: bool,
    least: S::Id,
    most: S::Id,
) -> Result<Option<Rule>, SpaceFault>
    requires least { IsKnown (S.sets space.old) least }
    requires most { IsKnown (S.sets space.old) most }
    requires within { IsWithin (S.sets space.old) least most }
    ensures extends { Extends (S.sets space.old) (S.sets space.new) }
    ensures rule { IfOk result (λ r. r ≡ least_with denies (S.sets space.old).options ((S.sets space.old).test least) ((S.sets space.old).test most) best) }
{
    let terms = few_terms(alloc, space, least, most)?;
    let best = lesser_made(alloc, best, denies, terms)?;
    let literals = first_literals(alloc, space, least, most)?;
    if literals.is_empty() {
        return Ok(best);
    }
    let behind = terms_behind(alloc, space, literals.as_slice(), least, most)?;
    Ok(lesser_made(alloc, best, denies, behind)?)
}

/// The least of the four rules that are true at least in one set and at most in another; none where each of them has more than 32 terms.
fn least_rule<S: Space>(
    alloc: Global,
    space: &mut S,
    least: S::Id,
    most: S::Id,
) -> Result<Option<Rule>, SpaceFault>
    requires least { IsKnown (S.sets space.old) least }
    requires most { IsKnown (S.sets space.old) most }
    requires within { IsWithin (S.sets space.old) least most }
    ensures extends { Extends (S.sets space.old) (S.sets space.new) }
    ensures rule { IfOk result (λ r. r ≡ least_rule (S.sets space.old).options ((S.sets space.old).test least) ((S.sets space.old).test most)) }
{
    let below = complement(space, most)?;
    let above = complement(space, least)?;
    let best = least_with(alloc, space, None, false, least, most)?;
    least_with(alloc, space, best, true, below, above)
}

/// The least and the greatest set that a rule for a set may have: what the set has of a scope, and all outside of the scope beside
/// it.
fn bounds<S: Space>(space: &mut S, set: S::Id, scope: S::Id) -> Result<(S::Id, S::Id), SpaceFault>
    requires set { IsKnown (S.sets space.old) set }
    requires scope { IsKnown (S.sets space.old) scope }
    ensures extends { Extends (S.sets space.old) (S.sets space.new) }
    ensures least { IfOk result (λ r. IsSet (S.sets space.new) r.0 (λ c. (S.sets space.old).test set c && (S.sets space.old).test scope c)) }
    ensures most { IfOk result (λ r. IsSet (S.sets space.new) r.1 (λ c. (S.sets space.old).test set c || not ((S.sets space.old).test scope c))) }
{
    let least = space.and(set, scope)?;
    let outside = complement(space, scope)?;
    let most = space.or(set, outside)?;
    Ok((least, most))
}

/// A rule that is true just where a set holds, among the configurations of a scope: the least of four that are made by the recursion of
/// Minato (1992) and Morreale (1970) between what the set has of the scope and the same with all that lies outside of it, by the order of
/// the options; for the set and for its complement, by the recursion alone and by literals first. So it speaks as little as this allows of
/// what lies outside. None where each of the four has more than 32 terms.
pub fn rule_within<S: Space>(
    alloc: Global,
    space: &mut S,
    set: S::Id,
    scope: S::Id,
) -> Result<Option<Rule>, SpaceFault>
    requires set { IsKnown (S.sets space.old) set }
    requires scope { IsKnown (S.sets space.old) scope }
    ensures extends { Extends (S.sets space.old) (S.sets space.new) }
    ensures rule { IfOk result (λ r. r ≡ rule_within (S.sets space.old).options ((S.sets space.old).test set) ((S.sets space.old).test scope)) }
{
    let bounds = bounds(space, set, scope)?;
    least_rule(alloc, space, bounds.0, bounds.1)
}
