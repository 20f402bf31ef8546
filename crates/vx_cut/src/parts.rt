//! The settings of chosen options that a model allows, as terms.

ghost use Rattle.std.specs.Prelude.{◌≡◌, ◌<◌, ◌^◌, ◌∷◌, ◌++◌, ◌&&◌, [], true, false, if◌then◌else◌, IfOk, OnOk, filter, length};
ghost use Rattle.std.specs.List.{AllByRecursion};
ghost use Rattle.vx_space.specs.Sets.{Extends, IsKnown, IsSet};
ghost use Rattle.vx_model.specs.Models.{is_allowed};
ghost use Rattle.vx_explain.specs.Between.{with_literal};
ghost use Rattle.vx_explain.specs.Rules.{AreOf, literal_holds, term_holds};
ghost use Rattle.vx_explain.specs.declared.literal.Literal as literal;
ghost use Rattle.vx_cut.specs.Parts.{is_met, sides, terms_of};

use std::alloc::{AllocError, Global};
use vx_explain::Literal;
use vx_explain::literal::Term;
use vx_list::Items;
use vx_model::Model;
use vx_space::{Space, SpaceFault};

/// A term with one literal more, at its front.
fn with_front(alloc: Global, literal: Literal, term: &[Literal]) -> Result<Term, AllocError>
    ensures { IfOk result (λ longer. longer ≡ literal ∷ term.now) }
{
    let mut longer = vec![in alloc; literal]?;
    longer.extend_from_slice(term)?;
    Ok(Items::of(longer))
}

/// Puts terms with one literal more behind others.
fn put_with(
    alloc: Global,
    found: &mut Vec<Term>,
    literal: Literal,
    terms: &[Term],
) -> Result<(), AllocError>
    ensures { OnOk result (found.new.items ≡ found.old.items ++ with_literal literal.option literal.on terms.now) }
{
    for term in terms {
        found.push(with_front(alloc, literal, term.as_slice())?)?;
    }
    Ok(())
}

/// Terms with the option off, and then with it on.
fn both_sides(alloc: Global, option: u32, terms: &[Term]) -> Result<Vec<Term>, AllocError>
    ensures { IfOk result (λ both. both.items ≡ with_literal option false terms.now ++ with_literal option true terms.now) }
{
    let mut found = Vec::new(alloc);
    put_with(alloc, &mut found, Literal { option, on: false }, terms)?;
    put_with(alloc, &mut found, Literal { option, on: true }, terms)?;
    Ok(found)
}

/// The terms of the settings of one option more, where it is chosen.
fn with_option(
    alloc: Global,
    option: u32,
    is_chosen: bool,
    terms: Vec<Term>,
) -> Result<Vec<Term>, AllocError>
    ensures { IfOk result (λ all. all.items ≡ (if is_chosen then with_literal option false terms.items ++ with_literal option true terms.items else terms.items)) }
{
    if is_chosen {
        both_sides(alloc, option, terms.as_slice())
    } else {
        Ok(terms)
    }
}

/// The settings of the chosen options, each as a term: off before on, and the first option changes slowest.
fn sides(alloc: Global, chosen: &[bool]) -> Result<Vec<Term>, AllocError>
    requires { length chosen.now < 2 ^ 32 }
    ensures { IfOk result (λ terms. terms.items ≡ sides 0 chosen.now) }
{
    let mut terms = Vec::new(alloc);
    terms.push(Items::of(Vec::new(alloc)))?;
    let mut left = chosen.len();
    while left > 0 {
        left -= 1;
        terms = with_option(alloc, left as u32, chosen[left], terms)?;
    }
    Ok(terms)
}

/// The configurations of a set at which a literal holds.
fn literal_set<S: Space>(space: &mut S, set: S::Id, literal: Literal) -> Result<S::Id, SpaceFault>
    requires known { IsKnown (S.sets space.old) set }
    requires option { literal.option < (S.sets space.old).options }
    ensures set { IfOk result (λ id. IsSet (S.sets space.new) id (λ c. (S.sets space.old).test set c && literal_holds literal c)) }
    ensures extends { Extends (S.sets space.old) (S.sets space.new) }
{
    let option = space.option(literal.option)?;
    if literal.on {
        space.and(set, option)
    } else {
        space.minus(set, option)
    }
}

/// The configurations of a set at which a term holds.
fn term_set<S: Space>(space: &mut S, set: S::Id, term: &[Literal]) -> Result<S::Id, SpaceFault>
    requires known { IsKnown (S.sets space.old) set }
    requires options { AllByRecursion (λ (l : literal.Literal). l.option < (S.sets space.old).options) term.now }
    ensures set { IfOk result (λ id. IsSet (S.sets space.new) id (λ c. (S.sets space.old).test set c && term_holds term.now c)) }
    ensures extends { Extends (S.sets space.old) (S.sets space.new) }
{
    let mut part = set;
    for literal in term {
        part = literal_set(space, part, *literal)?;
    }
    Ok(part)
}

/// Whether a model allows a configuration at which a term holds, by the set of those that it allows.
fn is_met<S: Space>(
    space: &mut S,
    model: &Model,
    allowed: S::Id,
    term: &[Literal],
) -> Result<bool, SpaceFault>
    requires allowed { IsSet (S.sets space.old) allowed (is_allowed model.now) }
    requires options { (S.sets space.old).options ≡ length model.now.options }
    requires term { AllByRecursion (λ (l : literal.Literal). l.option < (S.sets space.old).options) term.now }
    ensures met { IfOk result (λ met. met ≡ is_met model.now term.now) }
    ensures extends { Extends (S.sets space.old) (S.sets space.new) }
{
    let part = term_set(space, allowed, term)?;
    Ok(!space.is_never(part))
}

/// Puts a term behind others, where it is met.
fn keep(alloc: Global, found: &mut Vec<Term>, met: bool, term: &[Literal]) -> Result<(), AllocError>
    ensures { OnOk result (found.new.items ≡ found.old.items ++ (if met then term.now ∷ [] else [])) }
{
    if met {
        found.push(Items::of(Vec::from_slice(alloc, term)?))?;
    }
    Ok(())
}

/// Those of some terms that an allowed configuration meets.
fn met_terms<S: Space>(
    alloc: Global,
    space: &mut S,
    model: &Model,
    allowed: S::Id,
    terms: &[Term],
) -> Result<Vec<Term>, SpaceFault>
    requires allowed { IsSet (S.sets space.old) allowed (is_allowed model.now) }
    requires options { (S.sets space.old).options ≡ length model.now.options }
    requires terms { AreOf (S.sets space.old).options terms.now }
    ensures met { IfOk result (λ met. met.items ≡ filter (is_met model.now) terms.now) }
    ensures extends { Extends (S.sets space.old) (S.sets space.new) }
{
    let mut found = Vec::new(alloc);
    for term in terms {
        let met = is_met(space, model, allowed, term.as_slice())?;
        keep(alloc, &mut found, met, term.as_slice())?;
    }
    Ok(found)
}

/// The terms of the parts of a model by chosen options.
pub fn terms_of<S: Space>(
    alloc: Global,
    space: &mut S,
    model: &Model,
    allowed: S::Id,
    chosen: &[bool],
) -> Result<Vec<Term>, SpaceFault>
    requires allowed { IsSet (S.sets space.old) allowed (is_allowed model.now) }
    requires options { (S.sets space.old).options ≡ length model.now.options }
    requires chosen { length chosen.now ≡ length model.now.options }
    ensures terms { IfOk result (λ terms. terms.items ≡ terms_of model.now chosen.now) }
    ensures extends { Extends (S.sets space.old) (S.sets space.new) }
{
    let terms = sides(alloc, chosen)?;
    met_terms(alloc, space, model, allowed, terms.as_slice())
}
