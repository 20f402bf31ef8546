//! How long a rule is: by the literals of its text and the brackets that are denied, and then by how many of them stand behind a `!`.

ghost use Rattle.std.specs.Prelude.{◌≡◌, ◌++◌, IfOk, OnOk, length};
ghost use Rattle.std.specs.List.{flat_map};
ghost use Rattle.vx_explain.specs.Candidates.{are_fewer, denial_signs, is_less, marks, signs, term_signs};

use crate::literal::{Literal, Term};
use crate::rule::{Rule, only_literal};
use std::alloc::{AllocError, Global};

/// Puts for each literal of a term whether it stands without `!`.
fn put_term_signs(signs: &mut Vec<bool>, term: &[Literal]) -> Result<(), AllocError>
    ensures { OnOk result (signs.new.items ≡ signs.old.items ++ term_signs term.now) }
{
    for literal in term {
        signs.push(literal.on)?;
    }
    Ok(())
}

/// The same of a term that is denied: of one literal, that of its opposite; else there is a bracket more.
fn put_denial_signs(signs: &mut Vec<bool>, term: &[Literal]) -> Result<(), AllocError>
    ensures { OnOk result (signs.new.items ≡ signs.old.items ++ denial_signs term.now) }
{
    if let Some(literal) = only_literal(term) {
        signs.push(!literal.on)?;
        return Ok(());
    }
    signs.push(false)?;
    put_term_signs(signs, term)
}

/// The signs of terms of which one is to hold.
fn put_any_signs(signs: &mut Vec<bool>, terms: &[Term]) -> Result<(), AllocError>
    ensures { OnOk result (signs.new.items ≡ signs.old.items ++ flat_map (λ term. term_signs term) terms.now) }
{
    for term in terms {
        put_term_signs(signs, term.as_slice())?;
    }
    Ok(())
}

/// The signs of terms of which none is to hold.
fn put_none_signs(signs: &mut Vec<bool>, terms: &[Term]) -> Result<(), AllocError>
    ensures { OnOk result (signs.new.items ≡ signs.old.items ++ flat_map (λ term. denial_signs term) terms.now) }
{
    for term in terms {
        put_denial_signs(signs, term.as_slice())?;
    }
    Ok(())
}

/// For each literal of a rule's text, and for each bracket that is denied, whether it stands without `!`.
fn signs_of(alloc: Global, rule: &Rule) -> Result<Vec<bool>, AllocError>
    ensures { IfOk result (λ found. found.items ≡ signs rule.now) }
{
    let mut signs = Vec::new(alloc);
    match rule {
        Rule::AnyOf(terms) => put_any_signs(&mut signs, terms.as_slice())?,
        Rule::NoneOf(terms) => put_none_signs(&mut signs, terms.as_slice())?,
    }
    Ok(signs)
}

/// How many of the signs are a `!`.
fn marks(signs: &[bool]) -> usize
    ensures { result ≡ length (marks signs.now) }
{
    let mut count = 0;
    for sign in signs {
        if !*sign {
            count += 1;
        }
    }
    count
}

/// Whether signs are fewer than others, or as many with fewer `!`.
fn are_fewer(one: &[bool], other: &[bool]) -> bool
    ensures { result ≡ are_fewer one.now other.now }
{
    one.len() < other.len() || (one.len() == other.len() && marks(one) < marks(other))
}

/// Whether a rule is less than another one: it has fewer literals, with one more for each bracket that is denied, or as many and fewer `!`.
pub fn is_less(alloc: Global, one: &Rule, other: &Rule) -> Result<bool, AllocError>
    ensures { IfOk result (λ less. less ≡ is_less one.now other.now) }
{
    let ones = signs_of(alloc, one)?;
    let others = signs_of(alloc, other)?;
    Ok(are_fewer(ones.as_slice(), others.as_slice()))
}
