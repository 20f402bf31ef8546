//! The line tables of a class (JVMS 4.7.12), read from the bytes of its file. All else is passed over.

ghost use Rattle.std.specs.Prelude.{◌≡◌, length, Ok, IfOk, OnOk};
ghost use Rattle.vx_pool.specs.Reading.{Answers, Gives, GivesBy, items, steps};
ghost use Rattle.vx_class.specs.File.{File};
ghost use Rattle.vx_class.specs.Members.{is_text_of};
ghost use Rattle.vx_lines.specs.Tables.{attribute_at, code_at, content_rows_at, field_at, field_step, head_at, lines_of, method_at, method_step, methods_at, pass_step, table_step, with_rows};

use crate::rows::put_table;
use crate::table::{LineRow, LineTable, MethodLines};
use std::alloc::{AllocError, Global};
use vx_class::ClassFile;
use vx_list::Items;
use vx_pool::{ClassFault, Cursor, Pool, read_pool, text};

/// The index of the name of an attribute, and its content.
#[tactic(auto, unfolding(crate::specs::Tables::attribute_at, vx_class::specs::Code::content_at))]
pub(crate) fn attribute<'a>(cursor: &mut Cursor<'a>) -> Result<(u16, &'a [u8]), ClassFault>
    ensures { GivesBy (λ a. (a.0, a.1.now)) result cursor.new (attribute_at cursor.old) }
{
    let name = cursor.u2()?;
    let len = cursor.u4()?;
    let content = cursor.take(len as usize)?;
    Ok((name, content))
}

fn pass_attribute(cursor: &mut Cursor) -> Result<(), ClassFault>
    ensures { Gives result cursor.new (pass_step tt cursor.old) }
{
    attribute(cursor)?;
    Ok(())
}

/// Passes over so many attributes.
fn pass_attributes(count: u16, cursor: &mut Cursor) -> Result<(), ClassFault>
    ensures { Gives result cursor.new (steps pass_step tt count cursor.old) }
{
    for _ in 0..count {
        pass_attribute(cursor)?;
    }
    Ok(())
}

#[tactic(auto, unfolding(crate::specs::Tables::field_at))]
fn pass_field(cursor: &mut Cursor) -> Result<(), ClassFault>
    ensures { Gives result cursor.new (field_at cursor.old) }
{
    cursor.take(6)?;
    let count = cursor.u2()?;
    pass_attributes(count, cursor)
}

/// Passes over so many fields.
fn pass_fields(count: u16, cursor: &mut Cursor) -> Result<(), ClassFault>
    ensures { Gives result cursor.new (steps field_step tt count cursor.old) }
{
    for _ in 0..count {
        pass_field(cursor)?;
    }
    Ok(())
}

/// Whether an index is that of a text.
pub(crate) fn is_text_of(pool: &Pool, index: u16, expected: &[u8]) -> bool
    ensures { result ≡ is_text_of pool.now index expected.now }
{
    match text(pool, index) {
        Some(text) => text == expected,
        None => false,
    }
}

/// Puts the rows of an attribute inside of code, whose name and content are given, behind others, where it is a line table.
fn put_named(
    pool: &Pool,
    name: u16,
    content: &[u8],
    rows: &mut Vec<LineRow>,
) -> Result<(), AllocError>
    ensures { OnOk result (rows.new.items ≡ with_rows pool.now rows.old.items (name, content.now)) }
{
    if is_text_of(pool, name, b"LineNumberTable".as_slice()) {
        return put_table(content, rows);
    }
    Ok(())
}

fn put_attribute(
    pool: &Pool,
    cursor: &mut Cursor,
    rows: &mut Vec<LineRow>,
) -> Result<(), ClassFault>
    ensures { GivesBy (λ _. rows.new.items) result cursor.new (table_step pool.now rows.old.items cursor.old) }
{
    let (name, content) = attribute(cursor)?;
    put_named(pool, name, content, rows)?;
    Ok(())
}

/// Puts the rows of so many attributes inside of code behind others.
fn put_attributes(
    pool: &Pool,
    count: u16,
    cursor: &mut Cursor,
    rows: &mut Vec<LineRow>,
) -> Result<(), ClassFault>
    ensures { GivesBy (λ _. rows.new.items) result cursor.new (steps (table_step pool.now) rows.old.items count cursor.old) }
{
    for _ in 0..count {
        put_attribute(pool, cursor, rows)?;
    }
    Ok(())
}

/// Puts the rows inside of code behind others.
#[tactic(auto, unfolding(crate::specs::Tables::code_at, vx_class::specs::Code::content_at))]
fn put_code(pool: &Pool, cursor: &mut Cursor, rows: &mut Vec<LineRow>) -> Result<(), ClassFault>
    ensures { GivesBy (λ _. rows.new.items) result cursor.new (code_at pool.now rows.old.items cursor.old) }
{
    cursor.take(4)?;
    let len = cursor.u4()?;
    cursor.take(len as usize)?;
    let catches = cursor.u2()?;
    cursor.take(8 * catches as usize)?;
    let count = cursor.u2()?;
    put_attributes(pool, count, cursor, rows)
}

/// Puts the rows in the content of an attribute of a method behind others, where it is code.
#[tactic(auto, unfolding(crate::specs::Tables::content_rows_at))]
fn put_content(
    pool: &Pool,
    name: u16,
    cursor: &mut Cursor,
    rows: &mut Vec<LineRow>,
) -> Result<(), ClassFault>
    ensures { GivesBy (λ _. rows.new.items) result cursor.new (content_rows_at pool.now rows.old.items name cursor.old) }
{
    let len = cursor.u4()?;
    if is_text_of(pool, name, b"Code".as_slice()) {
        return put_code(pool, cursor, rows);
    }
    cursor.take(len as usize)?;
    Ok(())
}

/// Puts the rows in an attribute of a method behind others.
#[tactic(auto, unfolding(crate::specs::Tables::method_step))]
fn put_method_attribute(
    pool: &Pool,
    cursor: &mut Cursor,
    rows: &mut Vec<LineRow>,
) -> Result<(), ClassFault>
    ensures { GivesBy (λ _. rows.new.items) result cursor.new (method_step pool.now rows.old.items cursor.old) }
{
    let name = cursor.u2()?;
    put_content(pool, name, cursor, rows)
}

/// Puts the rows in so many attributes of a method behind others.
fn put_method_attributes(
    pool: &Pool,
    count: u16,
    cursor: &mut Cursor,
    rows: &mut Vec<LineRow>,
) -> Result<(), ClassFault>
    ensures { GivesBy (λ _. rows.new.items) result cursor.new (steps (method_step pool.now) rows.old.items count cursor.old) }
{
    for _ in 0..count {
        put_method_attribute(pool, cursor, rows)?;
    }
    Ok(())
}

#[tactic(auto, unfolding(crate::specs::Tables::method_at))]
fn method(alloc: Global, pool: &Pool, cursor: &mut Cursor) -> Result<MethodLines, ClassFault>
    ensures { Gives result cursor.new (method_at pool.now cursor.old) }
{
    cursor.take(6)?;
    let count = cursor.u2()?;
    let mut rows = Vec::new(alloc);
    put_method_attributes(pool, count, cursor, &mut rows)?;
    Ok(MethodLines {
        rows: Items::of(rows),
    })
}

fn methods(
    alloc: Global,
    pool: &Pool,
    count: u16,
    cursor: &mut Cursor,
) -> Result<Items<MethodLines>, ClassFault>
    ensures { Gives result cursor.new (items (method_at pool.now) count cursor.old) }
{
    let mut methods = Vec::new(alloc);
    for _ in 0..count {
        let next = method(alloc, pool, cursor)?;
        methods.push(next)?;
    }
    Ok(Items::of(methods))
}

/// Passes over all that stands before the fields.
#[tactic(auto, unfolding(crate::specs::Tables::head_at))]
fn pass_head(alloc: Global, cursor: &mut Cursor) -> Result<(), ClassFault>
    ensures { Gives result cursor.new (head_at cursor.old) }
{
    cursor.take(8)?;
    read_pool(alloc, cursor)?;
    cursor.take(6)?;
    let count = cursor.u2()?;
    cursor.take(2 * count as usize)?;
    Ok(())
}

/// The lines of all methods, behind all that stands before them.
#[tactic(auto, unfolding(crate::specs::Tables::methods_at))]
pub(crate) fn class_methods(
    alloc: Global,
    pool: &Pool,
    cursor: &mut Cursor,
) -> Result<Items<MethodLines>, ClassFault>
    ensures { Gives result cursor.new (methods_at pool.now cursor.old) }
{
    pass_head(alloc, cursor)?;
    let fields = cursor.u2()?;
    pass_fields(fields, cursor)?;
    let count = cursor.u2()?;
    methods(alloc, pool, count, cursor)
}

#[tactic(auto, unfolding(crate::specs::Tables::lines_of))]
fn lines(alloc: Global, bytes: &[u8], pool: &Pool) -> Result<Items<MethodLines>, ClassFault>
    ensures { Answers result (lines_of bytes.now pool.now) }
{
    let mut cursor = Cursor::new(bytes);
    class_methods(alloc, pool, &mut cursor)
}

/// The lines of the methods of a class, read from the bytes that hold it: the rows of all line tables of a method's code, in
/// the order of the file. A table whose length isn't 2 and four times its count is passed over.
pub fn read_lines(alloc: Global, bytes: &[u8], class: &ClassFile) -> Result<LineTable, AllocError>
    requires { File bytes.now class.now }
    ensures rows { IfOk result (λ table. lines_of bytes.now class.now.pool ≡ Ok table.methods) }
    ensures each { IfOk result (λ table. length table.methods ≡ length class.now.methods) }
{
    match lines(alloc, bytes, &class.pool) {
        Ok(methods) => Ok(LineTable { methods }),
        Err(ClassFault::NoMemory) => Err(AllocError),
        Err(ClassFault::Bad { .. }) => unreachable!(),
    }
}
