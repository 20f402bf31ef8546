//! A tally that says in one set what one tally does, and elsewhere in another set what another one does: both sets and both tallies are gone
//! down at once, by the least option that any of them asks.

ghost use Rattle.std.specs.Prelude.{◌≡◌, ◌+◌, ◌<◌, ◌≤◌, true, false, IfOk, IfSome, length, slice_get, ℕ, Some};
ghost use Rattle.vx_tally.specs.Tally.{AreNodes, level};
ghost use Rattle.vx_tally.specs.Parts.{IsLeastOfBoth};
ghost use Rattle.vx_tally.specs.Answers.{IsChoice, AsksFrom, IsWork, IsChosenStep, IsHalfQuestion, IsEither, IsTaken, lowered_by, raised_by};

use crate::made::{Made, copied};
use crate::memo::{Memo, Question};
use crate::node::{Edge, TallyNode};
use crate::parts::{Holding, halves, level_of, sides, which_hold};
use std::alloc::{AllocError, Global};
use vx_space::Space;

/// The nodes that are made, the copies of the places of both tallies, and what was answered.
#[derive(Drop)]
pub(crate) struct Work<S: Space> {
    pub made: Made,
    pub copies: Vec<Option<usize>>,
    pub others: Vec<Option<usize>>,
    pub known: Memo<S, Option<Edge>>,
}

/// An answer, or the least option on which one of the sets depends.
enum Taken {
    Is(Option<Edge>),
    Divided(u32),
}

/// No copies of so many places.
fn no_copies(alloc: Global, places: usize) -> Result<Vec<Option<usize>>, AllocError>
    ensures { IfOk result (λ r. (k copy : ℕ) → slice_get r.items k ≡ Some (Some copy) → ⊥) }
{
    let mut copies = Vec::with_capacity(alloc, places)?;
    for _ in 0..places {
        copies.push(None)?;
    }
    Ok(copies)
}

/// Nothing made, copied or answered.
pub(crate) fn begun<S: Space>(
    alloc: Global,
    space: &S,
    first: &[TallyNode],
    second: &[TallyNode],
) -> Result<Work<S>, AllocError>
    ensures { IfOk result (λ r. IsWork (S.sets space.now) first.now second.now r.made r.copies.items r.others.items r.known) }
{
    let copies = no_copies(alloc, first.len())?;
    let others = no_copies(alloc, second.len())?;
    Ok(Work {
        made: Made::new(alloc, space.options()),
        copies,
        others,
        known: Memo::new(alloc),
    })
}

/// The answer where it is one of the edges, or none; else the least option on which one of the sets depends.
fn at_once<S: Space>(
    space: &S,
    first: &[TallyNode],
    second: &[TallyNode],
    work: &mut Work<S>,
    asked: Question<S::Id>,
) -> Result<Taken, AllocError>
    requires choice { IsChoice (S.sets space.now) first.now second.now asked }
    requires work { IsWork (S.sets space.now) first.now second.now work.old.made work.old.copies.items work.old.others.items work.old.known }
    ensures { IfOk result (IsTaken (S.sets space.now) first.now second.now asked work.old.made work.new.made work.new.copies.items work.new.others.items work.new.known) }
{
    match which_hold(space, asked.a, asked.b) {
        Holding::Neither => Ok(Taken::Is(None)),
        Holding::First => {
            let place = copied(first, &mut work.made, &mut work.copies, asked.first.place)?;
            Ok(Taken::Is(Some(Edge {
                place,
                more: asked.first.more,
            })))
        }
        Holding::Second => {
            let place = copied(second, &mut work.made, &mut work.others, asked.second.place)?;
            Ok(Taken::Is(Some(Edge {
                place,
                more: asked.second.more,
            })))
        }
        Holding::Both(option) => Ok(Taken::Divided(option)),
    }
}

/// A question with an option off, and with it on.
fn halved<S: Space>(
    space: &S,
    first: &[TallyNode],
    second: &[TallyNode],
    option: u32,
    asked: Question<S::Id>,
) -> (Question<S::Id>, Question<S::Id>)
    requires choice { IsChoice (S.sets space.now) first.now second.now asked }
    requires from { AsksFrom (S.sets space.now) first.now second.now asked option }
    requires option { option < (S.sets space.now).options }
    ensures low { IsHalfQuestion (S.sets space.now) first.now second.now asked option false result.0 }
    ensures high { IsHalfQuestion (S.sets space.now) first.now second.now asked option true result.1 }
{
    let a = halves(space, asked.a, option);
    let b = halves(space, asked.b, option);
    let one = sides(space.options(), first, asked.first, option);
    let other = sides(space.options(), second, asked.second, option);
    (
        Question {
            a: a.0,
            b: b.0,
            first: one.0,
            second: other.0,
        },
        Question {
            a: a.1,
            b: b.1,
            first: one.1,
            second: other.1,
        },
    )
}

/// The one answer of two that there is, or an edge that stands for both.
fn either(
    made: &mut Made,
    option: u32,
    low: Option<Edge>,
    high: Option<Edge>,
) -> Result<Option<Edge>, AllocError>
    requires nodes { AreNodes made.old.options made.old.nodes }
    requires option { option < made.old.options }
    requires low { IfSome low (λ edge. (edge.place ≤ length made.old.nodes) × (option < level made.old.options made.old.nodes edge.place)) }
    requires high { IfSome high (λ edge. (edge.place ≤ length made.old.nodes) × (option < level made.old.options made.old.nodes edge.place)) }
    ensures { IfOk result (IsEither option low high made.old made.new) }
{
    let Some(low) = low else {
        return Ok(high);
    };
    let Some(high) = high else {
        return Ok(Some(low));
    };
    let edge = made.make(option, low, high)?;
    Ok(Some(edge))
}

/// An answer that adds so much more.
fn raised(answer: Option<Edge>, more: u64) -> Option<Edge>
    ensures { result ≡ raised_by more answer }
{
    let edge = answer?;
    Some(edge.raised(more))
}

/// The question with so much less on both edges.
fn lowered<S: Space>(asked: Question<S::Id>, less: u64) -> Question<S::Id>
    ensures { result ≡ lowered_by asked less }
{
    Question {
        a: asked.a,
        b: asked.b,
        first: asked.first.lowered(less),
        second: asked.second.lowered(less),
    }
}

/// The least option that a set or an edge of a question asks.
fn least_asked<S: Space>(
    space: &S,
    first: &[TallyNode],
    second: &[TallyNode],
    least: u32,
    asked: Question<S::Id>,
) -> u32
    requires choice { IsChoice (S.sets space.now) first.now second.now asked }
    requires least { IsLeastOfBoth (S.sets space.now) asked.a asked.b least }
    ensures from { AsksFrom (S.sets space.now) first.now second.now asked result }
    ensures greatest { (i : ℕ) → AsksFrom (S.sets space.now) first.now second.now asked i → i ≤ result }
    ensures in_range { result < (S.sets space.now).options }
{
    let one = level_of(space.options(), first, asked.first.place);
    let other = level_of(space.options(), second, asked.second.place);
    least.min(one).min(other)
}

/// The answer to a question that asks no option below `from`. The lesser number of both edges is no part of what is remembered.
pub(crate) fn part<S: Space>(
    space: &S,
    first: &[TallyNode],
    second: &[TallyNode],
    work: &mut Work<S>,
    from: u32,
    asked: Question<S::Id>,
) -> Result<Option<Edge>, AllocError>
    requires choice { IsChoice (S.sets space.now) first.now second.now asked }
    requires from { AsksFrom (S.sets space.now) first.now second.now asked from }
    requires work { IsWork (S.sets space.now) first.now second.now work.old.made work.old.copies.items work.old.others.items work.old.known }
    ensures { IfOk result (IsChosenStep (S.sets space.now) first.now second.now asked work.old.made work.new.made work.new.copies.items work.new.others.items work.new.known) }
{
    let least = match at_once(space, first, second, work, asked)? {
        Taken::Is(answer) => return Ok(answer),
        Taken::Divided(least) => least,
    };
    let less = asked.first.more.min(asked.second.more);
    let lesser = lowered::<S>(asked, less);
    if let Some(answer) = work.known.get(lesser) {
        return Ok(raised(answer, less));
    }
    let option = least_asked(space, first, second, least, lesser);
    let (low, high) = halved(space, first, second, option, lesser);
    let off = part(space, first, second, work, option + 1, low)?;
    let on = part(space, first, second, work, option + 1, high)?;
    let answer = either(&mut work.made, option, off, on)?;
    work.known.put(lesser, answer)?;
    Ok(raised(answer, less))
}
