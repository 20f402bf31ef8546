//! Terms by literals first: single literals whose configurations are all in the greatest set, and the terms of the recursion for what they
//! leave of the least one.

ghost use Rattle.std.specs.Prelude.{◌≡◌, ◌≢◌, ◌⊎◌, ◌<◌, ◌≤◌, ◌++◌, ◌∷◌, [], true, false, IfOk, OnOk, length, if◌then◌else◌};
ghost use Rattle.vx_space.specs.Sets.{Extends, IsKnown, IsSet, IsTop};
ghost use Rattle.vx_explain.specs.Between.{IsWithin, if_few};
ghost use Rattle.vx_explain.specs.Literals.{LeavesOut, TakesOne, all_literals, first_literals, is_covered, is_useful, keeping, left_by, literals_of, taking, terms_behind, with_terms};
ghost use Rattle.vx_explain.specs.Rules.{AreNamed, literal_holds};

use crate::literal::{Literal, Term};
use crate::rule::term_of_one;
use crate::terms::{MOST_TERMS, few_terms};
use std::alloc::{AllocError, Global};
use vx_list::Items;
use vx_space::{Space, SpaceFault};

/// Puts each option, on or off.
#[tactic(auto, unfolding(crate::specs::Literals::literals_of))]
fn push_literals(all: &mut Vec<Literal>, options: u32, on: bool) -> Result<(), AllocError>
    ensures { OnOk result (all.new.items ≡ all.old.items ++ literals_of on options 0) }
{
    for option in 0..options {
        all.push(Literal { option, on })?;
    }
    Ok(())
}

/// The literals of all options, names before negations.
fn all_literals(alloc: Global, options: u32) -> Result<Vec<Literal>, AllocError>
    ensures { IfOk result (λ all. all.items ≡ all_literals options) }
{
    let mut all = Vec::new(alloc);
    push_literals(&mut all, options, true)?;
    push_literals(&mut all, options, false)?;
    Ok(all)
}

/// The configurations at which a literal holds.
fn set_of_literal<S: Space>(space: &mut S, literal: Literal) -> Result<S::Id, SpaceFault>
    requires { literal.option < (S.sets space.old).options }
    ensures extends { Extends (S.sets space.old) (S.sets space.new) }
    ensures set { IfOk result (λ id. IsSet (S.sets space.new) id (literal_holds literal)) }
{
    let on = space.option(literal.option)?;
    if literal.on {
        return Ok(on);
    }
    let always = space.always();
    space.minus(always, on)
}

/// Whether a set is seen not to be that of all configurations.
fn is_not_always<S: Space>(space: &S, id: S::Id) -> bool
    requires { IsKnown (S.sets space.now) id }
    ensures { result ≡ true → id ≢ (S.sets space.now).always }
{
    if space.top(id).is_some() {
        return true;
    }
    space.is_never(id)
}

/// Whether a set, of which the parts by its first option are given, is seen to leave out a configuration with a literal that is of this
/// option or an earlier one.
fn leaves_out_part<S: Space>(
    space: &S,
    id: S::Id,
    option: u32,
    low: S::Id,
    high: S::Id,
    literal: Literal,
) -> bool
    requires known { IsKnown (S.sets space.now) id }
    requires top { IsTop (S.sets space.now) id option low high }
    requires earlier { literal.option ≤ option }
    ensures { result ≡ true → LeavesOut (S.sets space.now) id literal }
{
    if literal.option != option {
        return true;
    }
    if literal.on {
        is_not_always(space, high)
    } else {
        is_not_always(space, low)
    }
}

/// The part with an option off, or the one with it on where the other isn't seen to leave out anything.
fn part_with_less<S: Space>(space: &S, low: S::Id, high: S::Id) -> S::Id
    requires low { IsKnown (S.sets space.now) low }
    ensures { (result ≡ low) ⊎ (result ≡ high) }
{
    if is_not_always(space, low) { low } else { high }
}

/// Whether a set is seen to leave out a configuration with a literal, by one way down its diagram. So most literals are turned down with
/// no set made.
fn leaves_out<S: Space>(space: &S, set: S::Id, literal: Literal) -> bool
    requires set { IsKnown (S.sets space.now) set }
    ensures { result ≡ true → LeavesOut (S.sets space.now) set literal }
{
    let mut at = set;
    for _turn in 0..space.options() {
        let Some(top) = space.top(at) else {
            return false;
        };
        if literal.option <= top.0 {
            return leaves_out_part(space, at, top.0, top.1, top.2, literal);
        }
        at = part_with_less(space, top.1, top.2);
    }
    false
}

/// Whether a set has some of what is left, and nothing outside of the greatest set.
fn is_useful<S: Space>(
    space: &mut S,
    set: S::Id,
    rest: S::Id,
    most: S::Id,
) -> Result<bool, SpaceFault>
    requires set { IsKnown (S.sets space.old) set }
    requires rest { IsKnown (S.sets space.old) rest }
    requires most { IsKnown (S.sets space.old) most }
    ensures extends { Extends (S.sets space.old) (S.sets space.new) }
    ensures useful { IfOk result (λ told. told ≡ is_useful (S.sets space.old).options ((S.sets space.old).test rest) ((S.sets space.old).test most) ((S.sets space.old).test set)) }
{
    let some = space.and(rest, set)?;
    if space.is_never(some) {
        return Ok(false);
    }
    let outside = space.minus(set, most)?;
    Ok(space.is_never(outside))
}

/// Takes a literal, if it has some of what the literals before it left, and nothing outside of the greatest set; the answer is what is
/// left then.
fn take_literal<S: Space>(
    space: &mut S,
    taken: &mut Vec<Literal>,
    literal: Literal,
    rest: S::Id,
    most: S::Id,
) -> Result<S::Id, SpaceFault>
    requires literal { literal.option < (S.sets space.old).options }
    requires rest { IsKnown (S.sets space.old) rest }
    requires most { IsKnown (S.sets space.old) most }
    ensures extends { Extends (S.sets space.old) (S.sets space.new) }
    ensures one { IfOk result (TakesOne (S.sets space.old) (S.sets space.new) most literal rest taken.old.items taken.new.items) }
{
    if leaves_out(space, most, literal) {
        return Ok(rest);
    }
    let set = set_of_literal(space, literal)?;
    if !is_useful(space, set, rest, most)? {
        return Ok(rest);
    }
    let left = space.minus(rest, set)?;
    taken.push(literal)?;
    Ok(left)
}

/// Takes some literals, one after the other.
fn take_literals<S: Space>(
    space: &mut S,
    taken: &mut Vec<Literal>,
    all: &[Literal],
    least: S::Id,
    most: S::Id,
) -> Result<(), SpaceFault>
    requires named { AreNamed (S.sets space.old).options all.now }
    requires least { IsKnown (S.sets space.old) least }
    requires most { IsKnown (S.sets space.old) most }
    ensures extends { Extends (S.sets space.old) (S.sets space.new) }
    ensures taken { OnOk result (taken.new.items ≡ taking (S.sets space.old).options ((S.sets space.old).test most) ((S.sets space.old).test least) taken.old.items all.now) }
{
    let mut rest = least;
    for literal in all {
        rest = take_literal(space, taken, *literal, rest, most)?;
    }
    Ok(())
}

/// What literals leave of a set.
fn left_by<S: Space>(space: &mut S, set: S::Id, literals: &[Literal]) -> Result<S::Id, SpaceFault>
    requires set { IsKnown (S.sets space.old) set }
    requires named { AreNamed (S.sets space.old).options literals.now }
    ensures extends { Extends (S.sets space.old) (S.sets space.new) }
    ensures left { IfOk result (λ id. IsSet (S.sets space.new) id (left_by literals.now ((S.sets space.old).test set))) }
{
    let mut rest = set;
    for literal in literals {
        let taken = set_of_literal(space, *literal)?;
        rest = space.minus(rest, taken)?;
    }
    Ok(rest)
}

/// Whether what a literal has of a set is all in others.
fn is_covered<S: Space>(
    space: &mut S,
    least: S::Id,
    literal: Literal,
    kept: &[Literal],
    later: &[Literal],
) -> Result<bool, SpaceFault>
    requires least { IsKnown (S.sets space.old) least }
    requires literal { literal.option < (S.sets space.old).options }
    requires kept { AreNamed (S.sets space.old).options kept.now }
    requires later { AreNamed (S.sets space.old).options later.now }
    ensures extends { Extends (S.sets space.old) (S.sets space.new) }
    ensures covered { IfOk result (λ told. told ≡ is_covered (S.sets space.old).options ((S.sets space.old).test least) literal (kept.now ++ later.now)) }
{
    let set = set_of_literal(space, literal)?;
    let own = space.and(least, set)?;
    let some = left_by(space, own, kept)?;
    let rest = left_by(space, some, later)?;
    Ok(space.is_never(rest))
}

/// Keeps a literal, if those that are kept and those that are still to come don't cover it.
fn keep_literal<S: Space>(
    space: &mut S,
    kept: &mut Vec<Literal>,
    literal: Literal,
    later: &[Literal],
    least: S::Id,
) -> Result<(), SpaceFault>
    requires least { IsKnown (S.sets space.old) least }
    requires literal { literal.option < (S.sets space.old).options }
    requires kept { AreNamed (S.sets space.old).options kept.old.items }
    requires later { AreNamed (S.sets space.old).options later.now }
    ensures extends { Extends (S.sets space.old) (S.sets space.new) }
    ensures kept { OnOk result (kept.new.items ≡ (if is_covered (S.sets space.old).options ((S.sets space.old).test least) literal (kept.old.items ++ later.now) then kept.old.items else kept.old.items ++ literal ∷ [])) }
{
    if is_covered(space, least, literal, kept.as_slice(), later)? {
        return Ok(());
    }
    kept.push(literal)?;
    Ok(())
}

/// Keeps those of some literals that the others don't cover, one after the other.
fn keep_literals<S: Space>(
    space: &mut S,
    kept: &mut Vec<Literal>,
    taken: &[Literal],
    least: S::Id,
) -> Result<(), SpaceFault>
    requires least { IsKnown (S.sets space.old) least }
    requires kept { AreNamed (S.sets space.old).options kept.old.items }
    requires taken { AreNamed (S.sets space.old).options taken.now }
    ensures extends { Extends (S.sets space.old) (S.sets space.new) }
    ensures kept { OnOk result (kept.new.items ≡ keeping (S.sets space.old).options ((S.sets space.old).test least) kept.old.items taken.now) }
{
    for at in 0..taken.len() {
        keep_literal(space, kept, taken[at], &taken[at + 1..], least)?;
    }
    Ok(())
}

/// The literals that stand first: each one, names before negations, that has some of what those before it left of the least set and nothing
/// outside of the greatest one, without those that the others cover.
pub fn first_literals<S: Space>(
    alloc: Global,
    space: &mut S,
    least: S::Id,
    most: S::Id,
) -> Result<Vec<Literal>, SpaceFault>
    requires least { IsKnown (S.sets space.old) least }
    requires most { IsKnown (S.sets space.old) most }
    ensures extends { Extends (S.sets space.old) (S.sets space.new) }
    ensures literals { IfOk result (λ literals. literals.items ≡ first_literals (S.sets space.old).options ((S.sets space.old).test least) ((S.sets space.old).test most)) }
{
    let all = all_literals(alloc, space.options())?;
    let mut taken = Vec::new(alloc);
    take_literals(space, &mut taken, all.as_slice(), least, most)?;
    let mut kept = Vec::new(alloc);
    keep_literals(space, &mut kept, taken.as_slice(), least)?;
    Ok(kept)
}

/// Each literal as a term, and terms behind them.
fn with_terms(alloc: Global, literals: &[Literal], terms: &[Term]) -> Result<Vec<Term>, AllocError>
    ensures { IfOk result (λ all. all.items ≡ with_terms literals.now terms.now) }
{
    let mut all = Vec::new(alloc);
    for literal in literals {
        all.push(Items::of(term_of_one(alloc, *literal)?))?;
    }
    for term in terms {
        all.push(Items::of(Vec::from_slice(alloc, term.as_slice())?))?;
    }
    Ok(all)
}

/// The literals as terms, and the terms of the recursion for what they leave; none where they are more than 32.
pub fn terms_behind<S: Space>(
    alloc: Global,
    space: &mut S,
    literals: &[Literal],
    least: S::Id,
    most: S::Id,
) -> Result<Option<Items<Term>>, SpaceFault>
    requires least { IsKnown (S.sets space.old) least }
    requires most { IsKnown (S.sets space.old) most }
    requires within { IsWithin (S.sets space.old) least most }
    requires named { AreNamed (S.sets space.old).options literals.now }
    ensures extends { Extends (S.sets space.old) (S.sets space.new) }
    ensures terms { IfOk result (λ r. r ≡ if_few (terms_behind (S.sets space.old).options ((S.sets space.old).test least) ((S.sets space.old).test most) literals.now)) }
{
    let rest = left_by(space, least, literals)?;
    let Some(terms) = few_terms(alloc, space, rest, most)? else {
        return Ok(None);
    };
    let all = with_terms(alloc, literals, terms.as_slice())?;
    Ok(few_of(all))
}

/// The terms, if they are at most 32.
fn few_of(terms: Vec<Term>) -> Option<Items<Term>>
    ensures { result ≡ if_few terms.items }
{
    if terms.len() > MOST_TERMS {
        return None;
    }
    Some(Items::of(terms))
}
