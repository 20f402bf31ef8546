//! Rules: that one of some terms holds, or that none of them does.

ghost use Rattle.std.specs.Prelude.{◌≡◌, ◌++◌, ◌∷◌, [], true, false, IfOk, OnOk, map, option_copied};
ghost use Rattle.vx_explain.specs.Rules.{none_of, one_of_those, only, opposite, opposites, those};

use crate::literal::{Literal, Term};
use crate::terms::MOST_TERMS;
use std::alloc::{AllocError, Global};
use vx_list::Items;

/// A rule over the options, by terms.
#[derive(Drop)]
pub enum Rule {
    /// One of the terms holds.
    AnyOf(Items<Term>),
    /// None of the terms holds.
    NoneOf(Items<Term>),
}

/// The literal that holds just where this one doesn't.
pub fn opposite(literal: Literal) -> Literal
    ensures { result ≡ opposite literal }
{
    Literal {
        option: literal.option,
        on: !literal.on,
    }
}

/// The literal of a term of one.
#[tactic(auto, using(crate::proofs::Truths::only_is))]
pub fn only_literal(term: &[Literal]) -> Option<Literal>
    ensures { result ≡ only term.now }
{
    if term.len() == 1 {
        term.first().copied()
    } else {
        None
    }
}

/// The term that stands alone.
#[tactic(auto, using(crate::proofs::Truths::only_is))]
fn only_term(terms: &[Term]) -> Option<&Term>
    ensures { option_copied result ≡ only terms.now }
{
    if terms.len() == 1 {
        terms.first()
    } else {
        None
    }
}

/// The literal as a term.
pub fn term_of_one(alloc: Global, literal: Literal) -> Result<Vec<Literal>, AllocError>
    ensures { IfOk result (λ term. term.items ≡ literal ∷ []) }
{
    let mut term = Vec::new(alloc);
    term.push(literal)?;
    Ok(term)
}

/// Of each literal of a term the opposite, as a term.
fn opposites(alloc: Global, term: &[Literal]) -> Result<Vec<Term>, AllocError>
    ensures { IfOk result (λ terms. terms.items ≡ opposites term.now) }
{
    let mut terms = Vec::new(alloc);
    for literal in term {
        terms.push(Items::of(term_of_one(alloc, opposite(*literal))?))?;
    }
    Ok(terms)
}

/// Puts a term, if it is of one literal, or if it isn't.
fn push_one_of_those(
    alloc: Global,
    ordered: &mut Vec<Term>,
    term: &[Literal],
    single: bool,
) -> Result<(), AllocError>
    ensures { OnOk result (ordered.new.items ≡ ordered.old.items ++ one_of_those single term.now) }
{
    let is_single = term.len() == 1;
    let is_asked = if single { is_single } else { !is_single };
    if is_asked {
        ordered.push(Items::of(Vec::from_slice(alloc, term)?))?;
    }
    Ok(())
}

/// Puts those of some terms that are of one literal, or the others.
fn push_those(
    alloc: Global,
    ordered: &mut Vec<Term>,
    terms: &[Term],
    single: bool,
) -> Result<(), AllocError>
    ensures { OnOk result (ordered.new.items ≡ ordered.old.items ++ those single terms.now) }
{
    for term in terms {
        push_one_of_those(alloc, ordered, term.as_slice(), single)?;
    }
    Ok(())
}

/// Terms of one literal before the others.
fn singles_first(alloc: Global, terms: &[Term]) -> Result<Vec<Term>, AllocError>
    ensures { IfOk result (λ ordered. ordered.items ≡ those true terms.now ++ those false terms.now) }
{
    let mut ordered = Vec::new(alloc);
    push_those(alloc, &mut ordered, terms, true)?;
    push_those(alloc, &mut ordered, terms, false)?;
    Ok(ordered)
}

/// The rule that none of some terms holds, those of one literal first. That of a single term is that the opposite of one of its literals
/// does, if these are at most 32.
pub fn none_of(alloc: Global, terms: &[Term]) -> Result<Rule, AllocError>
    ensures { IfOk result (λ rule. rule ≡ none_of terms.now) }
{
    if let Some(term) = only_term(terms)
        && term.len() <= MOST_TERMS
    {
        let opposites = opposites(alloc, term.as_slice())?;
        return Ok(Rule::AnyOf(Items::of(opposites)));
    }
    let ordered = singles_first(alloc, terms)?;
    Ok(Rule::NoneOf(Items::of(ordered)))
}
