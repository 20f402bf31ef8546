//! The code of a method (JVMS 4.7.3): its parts, then its instructions, its jumps and its catch rows.

ghost use Rattle.std.specs.Prelude.{◌≡◌, ◌+◌, ◌*◌, ◌^◌, ◌<◌, length, IfOk, OnOk, Ok, Some};
ghost use Rattle.vx_pool.specs.Reading.{Gives, GivesBy, Answers, steps, items};
ghost use Rattle.vx_class.specs.Code.{utf8_at, content_at, skipped_at, skip_step, all_skipped_at, catch_at, catches_at, row_checked, catches_checked, parts_at, code_checked, code_at};
ghost use Rattle.vx_class.specs.Fits.{PartsFit};
ghost use Rattle.vx_pool.specs.Lookups.{text};

use crate::class_file::{Catch, Code};
use std::alloc::Global;
use vx_list::Items;
use vx_pool::{
    ClassFault, Cursor, JudgedPool, Pool, Starts, check_jumps, is_class, is_usable, refusal,
    starts_of, text,
};

/// The index at the cursor, and the text that it names.
#[tactic(auto, unfolding(crate::specs::Code::utf8_at))]
pub fn utf8<'p>(pool: &'p Pool, cursor: &mut Cursor) -> Result<(u16, &'p [u8]), ClassFault>
    ensures value { GivesBy (λ x. (x.0, x.1.now)) result cursor.new (utf8_at pool.now cursor.old) }
    ensures named { IfOk result (λ x. text pool.now x.0 ≡ Some x.1.now) }
    ensures few { IfOk result (λ x. length x.1.now < 2 ^ 16) }
{
    let at = cursor.at();
    let index = cursor.u2()?;
    if !is_usable(pool, index) {
        return refusal(at, 5);
    }
    match text(pool, index) {
        Some(text) => Ok((index, text)),
        None => refusal(at, 6),
    }
}

/// Passes over a length and so many bytes.
#[tactic(auto, unfolding(crate::specs::Code::content_at))]
pub fn content<'a>(cursor: &mut Cursor<'a>) -> Result<&'a [u8], ClassFault>
    ensures { GivesBy (λ t. t.now) result cursor.new (content_at cursor.old) }
{
    let len = cursor.u4()?;
    cursor.take(len as usize)
}

#[tactic(auto, unfolding(crate::specs::Code::skipped_at))]
fn skip(pool: &Pool, cursor: &mut Cursor) -> Result<(), ClassFault>
    ensures { Gives result cursor.new (skipped_at pool.now cursor.old) }
{
    utf8(pool, cursor)?;
    content(cursor)?;
    Ok(())
}

/// Passes over so many attributes.
fn skip_some(pool: &Pool, count: u16, cursor: &mut Cursor) -> Result<(), ClassFault>
    ensures { Gives result cursor.new (steps (skip_step pool.now) tt count cursor.old) }
{
    for _ in 0..count {
        skip(pool, cursor)?;
    }
    Ok(())
}

/// Passes over attributes.
#[tactic(auto, unfolding(crate::specs::Code::all_skipped_at))]
pub fn skip_all(pool: &Pool, cursor: &mut Cursor) -> Result<(), ClassFault>
    ensures { Gives result cursor.new (all_skipped_at pool.now cursor.old) }
{
    let count = cursor.u2()?;
    skip_some(pool, count, cursor)
}

#[tactic(auto, unfolding(crate::specs::Code::catch_at))]
fn catch_row(cursor: &mut Cursor) -> Result<Catch, ClassFault>
    ensures value { Gives result cursor.new (catch_at cursor.old) }
    ensures moved { OnOk result (cursor.new.at ≡ cursor.old.at + 8) }
{
    let start = cursor.u2()?;
    let end = cursor.u2()?;
    let handler = cursor.u2()?;
    let class = cursor.u2()?;
    Ok(Catch {
        start,
        end,
        handler,
        class,
    })
}

fn catch_rows(alloc: Global, count: u16, cursor: &mut Cursor) -> Result<Items<Catch>, ClassFault>
    ensures value { Gives result cursor.new (items catch_at count cursor.old) }
    ensures moved { IfOk result (λ rows. cursor.new.at ≡ cursor.old.at + 8 * length rows) }
{
    let mut rows = Vec::new(alloc);
    for _ in 0..count {
        rows.push(catch_row(cursor)?)?;
    }
    Ok(Items::of(rows))
}

#[tactic(auto, unfolding(crate::specs::Code::catches_at))]
fn catches(alloc: Global, cursor: &mut Cursor) -> Result<Items<Catch>, ClassFault>
    ensures value { Gives result cursor.new (catches_at cursor.old) }
    ensures moved { IfOk result (λ rows. cursor.new.at ≡ cursor.old.at + (2 + 8 * length rows)) }
{
    let count = cursor.u2()?;
    let rows = catch_rows(alloc, count, cursor)?;
    Ok(rows)
}

/// The checks of a catch row that stands at `at`.
fn catch_holds(
    pool: &Pool,
    starts: &Starts,
    code: &[u8],
    row: Catch,
    at: u64,
) -> Result<(), ClassFault>
    requires { length code.now < 2 ^ 16 }
    ensures { Answers result (row_checked pool.now starts.now code.now row at) }
{
    if !(row.start < row.end
        && row.end as usize <= code.len()
        && starts.has(u32::from(row.start))
        && starts.has(u32::from(row.handler))
        && (starts.has(u32::from(row.end)) || row.end as usize == code.len()))
    {
        return refusal(at, 12);
    }
    if row.class == 0 {
        return Ok(());
    }
    if !is_usable(pool, row.class) {
        return refusal(at, 5);
    }
    if !is_class(pool, row.class) {
        return refusal(at, 6);
    }
    Ok(())
}

/// The checks of catch rows, the first of which stands at `start`.
fn check_catches(
    pool: &Pool,
    starts: &Starts,
    code: &[u8],
    rows: &[Catch],
    start: u64,
) -> Result<(), ClassFault>
    requires size { length code.now < 2 ^ 16 }
    requires fits { start + 8 * length rows.now < 2 ^ 64 }
    ensures { Answers result (catches_checked pool.now starts.now code.now rows.now start) }
{
    let mut at = start;
    for row in rows {
        catch_holds(pool, starts, code, *row, at)?;
        at += 8;
    }
    Ok(())
}

/// What a code attribute says, and where in the file the code and the catch rows begin.
#[derive(Debug, Drop)]
pub struct Parts {
    pub code: Code,
    pub base: u64,
    pub rows: u64,
}

/// The content of a code attribute, with room for the argument slots.
#[tactic(auto, unfolding(crate::specs::Code::parts_at))]
fn read_parts(
    alloc: Global,
    pool: &Pool,
    slots: u16,
    cursor: &mut Cursor,
) -> Result<Parts, ClassFault>
    ensures value { Gives result cursor.new (parts_at pool.now slots cursor.old) }
    ensures fit { IfOk result PartsFit }
{
    let max_stack = cursor.u2()?;
    let at = cursor.at();
    let max_locals = cursor.u2()?;
    if slots > max_locals {
        return refusal(at, 12);
    }
    let at = cursor.at();
    let len = cursor.u4()?;
    if len == 0 || len >= 65536 {
        return refusal(at, 9);
    }
    let base = cursor.at();
    let bytes = Items::of(Vec::from_slice(alloc, cursor.take(len as usize)?)?);
    let at = cursor.at();
    let catches = catches(alloc, cursor)?;
    let _after = cursor.at();
    skip_all(pool, cursor)?;
    let code = Code {
        max_stack,
        max_locals,
        bytes,
        catches,
    };
    Ok(Parts {
        code,
        base,
        rows: at + 2,
    })
}

/// The checks of instructions, then of jumps, then of catch rows.
#[tactic(auto, unfolding(crate::specs::Code::code_checked))]
fn check(alloc: Global, pool: &JudgedPool, major: u16, parts: &Parts) -> Result<(), ClassFault>
    requires { PartsFit parts.now }
    ensures { Answers result (code_checked pool.now major parts.now) }
{
    let code = parts.code.bytes.as_slice();
    let starts = starts_of(alloc, pool, major, parts.code.max_locals, code, parts.base)?;
    check_jumps(&starts, code, parts.base)?;
    check_catches(
        pool.pool(),
        &starts,
        code,
        parts.code.catches.as_slice(),
        parts.rows,
    )
}

/// A code attribute whose name stands at `at`.
#[tactic(auto, unfolding(crate::specs::Code::code_at))]
pub fn read_code(
    alloc: Global,
    pool: &JudgedPool,
    major: u16,
    slots: u16,
    at: u64,
    cursor: &mut Cursor,
) -> Result<Code, ClassFault>
    ensures { Gives result cursor.new (code_at pool.now major slots at cursor.old) }
{
    let len = cursor.u4()?;
    cursor.room(len as usize)?;
    let start = cursor.at();
    let parts = read_parts(alloc, pool.pool(), slots, cursor)?;
    if cursor.at() != start + u64::from(len) {
        return refusal(at, 12);
    }
    check(alloc, pool, major, &parts)?;
    Ok(parts.code)
}
