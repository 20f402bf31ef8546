//! The source file of a class (JVMS 4.7.10), read from the bytes of its file. All else is passed over.

ghost use Rattle.std.specs.Prelude.{◌≡◌, IfOk, option_and_then};
ghost use Rattle.vx_pool.specs.Reading.{Answers, Gives, GivesBy, steps};
ghost use Rattle.vx_class.specs.File.{File};
ghost use Rattle.vx_pool.specs.Lookups.{text};
ghost use Rattle.vx_lines.specs.Sources.{IsName, file_step, index_in, source_of, sources_at, with_index};

use crate::reading::{attribute, class_methods, is_text_of};
use crate::rows::number_of;
use std::alloc::{AllocError, Global};
use vx_class::ClassFile;
use vx_pool::{ClassFault, Cursor, Pool, text};
use vx_value::Name;

/// The index in a content of two bytes; one of another length has none.
fn index_in(content: &[u8]) -> Option<u16>
    ensures { result ≡ index_in content.now }
{
    match content {
        [high, low] => Some(number_of(*high, *low)),
        _ => None,
    }
}

/// The index of the name of the source file behind an attribute, whose name and content are given.
fn with_index(pool: &Pool, front: Option<u16>, name: u16, content: &[u8]) -> Option<u16>
    ensures { result ≡ with_index pool.now front (name, content.now) }
{
    if is_text_of(pool, name, b"SourceFile".as_slice()) {
        return index_in(content);
    }
    front
}

fn take_attribute(
    pool: &Pool,
    cursor: &mut Cursor,
    found: &mut Option<u16>,
) -> Result<(), ClassFault>
    ensures { GivesBy (λ _. found.new) result cursor.new (file_step pool.now found.old cursor.old) }
{
    let (name, content) = attribute(cursor)?;
    *found = with_index(pool, *found, name, content);
    Ok(())
}

/// Takes the index of the name of the source file from so many attributes.
fn take_attributes(
    pool: &Pool,
    count: u16,
    cursor: &mut Cursor,
    found: &mut Option<u16>,
) -> Result<(), ClassFault>
    ensures { GivesBy (λ _. found.new) result cursor.new (steps (file_step pool.now) found.old count cursor.old) }
{
    for _ in 0..count {
        take_attribute(pool, cursor, found)?;
    }
    Ok(())
}

#[tactic(auto, unfolding(crate::specs::Sources::sources_at))]
fn class_source(alloc: Global, pool: &Pool, cursor: &mut Cursor) -> Result<Option<u16>, ClassFault>
    ensures { Gives result cursor.new (sources_at pool.now cursor.old) }
{
    class_methods(alloc, pool, cursor)?;
    let count = cursor.u2()?;
    let mut found = None;
    take_attributes(pool, count, cursor, &mut found)?;
    Ok(found)
}

#[tactic(auto, unfolding(crate::specs::Sources::source_of))]
fn source(alloc: Global, bytes: &[u8], pool: &Pool) -> Result<Option<u16>, ClassFault>
    ensures { Answers result (source_of bytes.now pool.now) }
{
    let mut cursor = Cursor::new(bytes);
    class_source(alloc, pool, &mut cursor)
}

/// The text of an index, where there is one.
fn name_of(alloc: Global, pool: &Pool, index: Option<u16>) -> Result<Option<Name>, AllocError>
    ensures { IfOk result (λ name. name ≡ option_and_then (text pool.now) index) }
{
    let Some(index) = index else {
        return Ok(None);
    };
    match text(pool, index) {
        Some(name) => Ok(Some(Name::of(alloc, name)?)),
        None => Ok(None),
    }
}

/// The name of the source file of a class, read from the bytes that hold it: that of the last attribute `SourceFile`; `None` where there is
/// none, or where its content isn't the index of a text.
pub fn read_source(
    alloc: Global,
    bytes: &[u8],
    class: &ClassFile,
) -> Result<Option<Name>, AllocError>
    requires { File bytes.now class.now }
    ensures { IfOk result (λ name. IsName class.now.pool (source_of bytes.now class.now.pool) name) }
{
    match source(alloc, bytes, &class.pool) {
        Ok(index) => name_of(alloc, &class.pool, index),
        Err(ClassFault::NoMemory) => Err(AllocError),
        Err(ClassFault::Bad { .. }) => unreachable!(),
    }
}
