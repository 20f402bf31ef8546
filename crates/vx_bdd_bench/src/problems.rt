//! The problems, each as the set of its solutions.

ghost use Rattle.std.specs.Prelude.{◌<◌, IfOk};
ghost use Rattle.vx_space.specs.Sets.{IsKnown, Extends};

use std::alloc::{AllocError, Global};
use vx_space::{Space, SpaceFault};

/// Where option i is equal to option size + i, for each i below the size.
pub fn equalities<S: Space>(space: &mut S, size: u32) -> Result<S::Id, SpaceFault>
    ensures { IfOk result (IsKnown (S.sets space.new)) }
{
    let mut all = space.always();
    for i in 0..size {
        let x = option_or_never(space, i)?;
        let y = option_or_never(space, i.saturating_add(size))?;
        let both = space.and(x, y)?;
        let either = space.or(x, y)?;
        let differ = space.minus(either, both)?;
        all = space.minus(all, differ)?;
    }
    Ok(all)
}

/// Where an odd number of the options below the size is on.
pub fn parity<S: Space>(space: &mut S, size: u32) -> Result<S::Id, SpaceFault>
    ensures { IfOk result (IsKnown (S.sets space.new)) }
{
    let mut odd = space.never();
    for i in 0..size {
        let x = option_or_never(space, i)?;
        let stays = space.minus(odd, x)?;
        let becomes = space.minus(x, odd)?;
        odd = space.or(stays, becomes)?;
    }
    Ok(odd)
}

/// Where a queen stands in each row of a board, and none attacks another. The options are its squares, row by row.
pub fn queens<S: Space>(alloc: Global, space: &mut S, size: u32) -> Result<S::Id, SpaceFault>
    requires { size < 9 }
    ensures { IfOk result (IsKnown (S.sets space.new)) }
{
    let mut all = space.always();
    for row in 0..size {
        let squares = row_squares(alloc, size, row)?;
        let some = any_of(space, squares.as_slice())?;
        all = space.and(all, some)?;
    }
    for square in 0..size * size {
        let squares = attacked_squares(alloc, size, square)?;
        let attacked = any_of(space, squares.as_slice())?;
        let queen = option_or_never(space, square)?;
        let both = space.and(queen, attacked)?;
        all = space.minus(all, both)?;
    }
    Ok(all)
}

/// The squares of a row.
fn row_squares(alloc: Global, size: u32, row: u32) -> Result<Vec<u32>, AllocError> {
    let mut squares = Vec::new(alloc);
    for column in 0..size {
        squares.push(row.saturating_mul(size).saturating_add(column))?;
    }
    Ok(squares)
}

/// The squares that a queen attacks.
fn attacked_squares(alloc: Global, size: u32, square: u32) -> Result<Vec<u32>, AllocError>
    requires { size < 9 }
{
    let mut squares = Vec::new(alloc);
    for other in 0..size * size {
        if other != square && attacks(size, square, other) {
            squares.push(other)?;
        }
    }
    Ok(squares)
}

/// Whether two squares lie in one row, column or diagonal.
fn attacks(size: u32, a: u32, b: u32) -> bool {
    if size == 0 {
        return false;
    }
    let rows = (a / size).abs_diff(b / size);
    let columns = (a % size).abs_diff(b % size);
    rows == 0 || columns == 0 || rows == columns
}

/// Where one of the options is on.
fn any_of<S: Space>(space: &mut S, options: &[u32]) -> Result<S::Id, SpaceFault>
    ensures known { IfOk result (IsKnown (S.sets space.new)) }
    ensures extends { Extends (S.sets space.old) (S.sets space.new) }
{
    let mut some = space.never();
    for i in options {
        let on = option_or_never(space, *i)?;
        some = space.or(some, on)?;
    }
    Ok(some)
}

/// Where an option is on: nowhere, if there is no such option.
fn option_or_never<S: Space>(space: &mut S, i: u32) -> Result<S::Id, SpaceFault>
    ensures known { IfOk result (IsKnown (S.sets space.new)) }
    ensures extends { Extends (S.sets space.old) (S.sets space.new) }
{
    if i < space.options() {
        space.option(i)
    } else {
        Ok(space.never())
    }
}
