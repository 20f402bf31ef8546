//! Rows of two conditional values.

ghost use Rattle.std.specs.Prelude.{◌≡◌, IfOk, length};
ghost use Rattle.std.specs.Ordering.{nat_cmp};
ghost use Rattle.vx_space.specs.Sets.{Extends};
ghost use Rattle.vx_cond.specs.Row.{IsRow};

use crate::conds::{choice, sides};
use std::alloc::{AllocError, Global};
use vx_cond::{Projects, Row};
use vx_space::{Space, SpaceFault};

/// A row of one choice.
fn row_of<S: Space>(
    alloc: Global,
    space: &mut S,
    first: u64,
    second: u64,
) -> Result<Row<u64, S>, SpaceFault>
    ensures extends { Extends (S.sets space.old) (S.sets space.new) }
    ensures valid { IfOk result (IsRow nat_cmp (S.sets space.new)) }
    ensures one { IfOk result (λ r. length r.conds ≡ 1) }
{
    let value = choice(alloc, space, first, second)?;
    let mut row = Row::new(alloc, value.scope());
    row.push(value)?;
    Ok(row)
}

/// The values go on and come off at the end, down to an empty row.
#[tactic(auto, using(vx_cond::proofs::RowLaws::row_words))]
fn pushed_and_popped<S: Space>(alloc: Global, space: &mut S) -> Result<bool, SpaceFault> {
    let mut row = row_of(alloc, space, 1, 2)?;
    row.push(choice(alloc, space, 3, 4)?)?;
    let is_whole = row.len() == 2 && row.scope() == space.always();
    let last = row.pop().map_or(0, |cond| cond.leaves().len());
    let is_less = row.len() == 1;
    let first = row.pop().is_some();
    Ok(is_whole && last == 2 && is_less && first && row.pop().is_none())
}

/// A value that is put in is found there.
#[tactic(auto, using(vx_cond::proofs::RowLaws::row_words))]
fn replaced<S: Space>(alloc: Global, space: &mut S) -> Result<bool, SpaceFault> {
    let mut row = row_of(alloc, space, 1, 2)?;
    row.set(0, choice(alloc, space, 5, 6)?);
    let leaves = row.get(0).leaves();
    Ok(leaves.len() == 2 && leaves[0].value == 5)
}

/// The two parts of a row make the row again.
#[tactic(auto, using(vx_cond::proofs::RowLaws::row_words))]
fn parted_and_joined<S: Space>(alloc: Global, space: &mut S) -> Result<bool, SpaceFault> {
    let row = row_of(alloc, space, 1, 2)?;
    let (on, off) = sides(space)?;
    let first = row.restrict(space, on)?;
    let second = row.restrict(space, off)?;
    let whole = first.join(space, &second)?;
    let is_part = first.scope() == on;
    Ok(is_part && whole.scope() == space.always() && is_row_of_four_ids(alloc, &whole)?)
}

/// Whether a row has one value, and holds the ids of two leaves, of their scope and of its own.
fn is_row_of_four_ids<S: Space>(alloc: Global, row: &Row<u64, S>) -> Result<bool, AllocError> {
    let mut ids = Vec::new(alloc);
    Projects::ids_out(row, &mut ids)?;
    Ok(row.len() == 1 && ids.len() == 4)
}

/// What trials of rows show over a space with an option.
pub(crate) fn are_right<S: Space>(alloc: Global, space: &mut S) -> Result<bool, SpaceFault> {
    Ok(
        pushed_and_popped(alloc, space)?
            && replaced(alloc, space)?
            && parted_and_joined(alloc, space)?,
    )
}
