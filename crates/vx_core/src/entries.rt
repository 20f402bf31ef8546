//! The pool of a row of the table: each part is put behind what is there.

ghost use Rattle.std.specs.Prelude.{◌≡◌, ◌^◌, ◌<◌, OnOk, length, fold, take};
ghost use Rattle.vx_core.specs.Rows.{low, index_ahead, with_text, with_class, with_unusable, with_super, with_member, with_field, with_method, with_typed, with_reference};

use crate::row::{FieldRow, MethodRow, Reference};
use std::alloc::Global;
use vx_list::GivenUp;
use vx_pool::{Entry, Utf8};

/// The lowest two bytes of a number.
pub fn low(number: usize) -> u16
    ensures { result ≡ low number }
{
    (number % 65536) as u16
}

/// The index so many places behind the last entry.
fn index_ahead(pool: &Vec<Entry>, ahead: u16) -> u16
    ensures { result ≡ index_ahead pool.now.items ahead }
{
    low(low(pool.len()) as usize + ahead as usize)
}

/// The first 65,535 bytes of a text, which are all that a pool keeps of it.
fn kept_bytes<'a>(text: &'a str) -> &'a [u8]
    ensures kept { result.now ≡ take 65535 text.now }
    ensures few { length result.now < 2 ^ 16 }
{
    let bytes = text.as_bytes();
    if bytes.len() < 65536 {
        bytes
    } else {
        &bytes[..65535]
    }
}

/// A text.
#[tactic(auto, unfolding(crate::specs::Rows::with_text))]
fn put_text(alloc: Global, pool: &mut Vec<Entry>, text: &str) -> Result<(), GivenUp>
    ensures { OnOk result (pool.new.items ≡ with_text pool.old.items text.now) }
{
    let bytes = Vec::from_slice(alloc, kept_bytes(text))?;
    pool.push(Entry::Utf8(Utf8::of(bytes)))?;
    Ok(())
}

/// A class, with its name right behind it.
#[tactic(auto, unfolding(crate::specs::Rows::with_class))]
pub fn put_class(alloc: Global, pool: &mut Vec<Entry>, name: &str) -> Result<(), GivenUp>
    ensures { OnOk result (pool.new.items ≡ with_class pool.old.items name.now) }
{
    pool.push(Entry::Class(index_ahead(pool, 1)))?;
    put_text(alloc, pool, name)
}

/// Two unusable entries.
#[tactic(auto, unfolding(crate::specs::Rows::with_unusable))]
fn put_unusable(pool: &mut Vec<Entry>) -> Result<(), GivenUp>
    ensures { OnOk result (pool.new.items ≡ with_unusable pool.old.items) }
{
    pool.push(Entry::Unusable)?;
    pool.push(Entry::Unusable)?;
    Ok(())
}

/// The superclass, or two unusable entries where there is none.
#[tactic(auto, unfolding(crate::specs::Rows::with_super))]
pub fn put_super(
    alloc: Global,
    pool: &mut Vec<Entry>,
    superclass: Option<&str>,
) -> Result<(), GivenUp>
    ensures { OnOk result (pool.new.items ≡ with_super pool.old.items superclass.entry) }
{
    match superclass {
        Some(name) => put_class(alloc, pool, name),
        None => put_unusable(pool),
    }
}

/// The name and the descriptor of a member.
#[tactic(auto, unfolding(crate::specs::Rows::with_member))]
fn put_member(
    alloc: Global,
    pool: &mut Vec<Entry>,
    name: &str,
    descriptor: &str,
) -> Result<(), GivenUp>
    ensures { OnOk result (pool.new.items ≡ with_member pool.old.items name.now descriptor.now) }
{
    put_text(alloc, pool, name)?;
    put_text(alloc, pool, descriptor)
}

/// A name and type, with both right behind it.
#[tactic(auto, unfolding(crate::specs::Rows::with_typed))]
fn put_typed(
    alloc: Global,
    pool: &mut Vec<Entry>,
    name: &str,
    descriptor: &str,
) -> Result<(), GivenUp>
    ensures { OnOk result (pool.new.items ≡ with_typed pool.old.items name.now descriptor.now) }
{
    pool.push(Entry::NameAndType(index_ahead(pool, 1), index_ahead(pool, 2)))?;
    put_member(alloc, pool, name, descriptor)
}

/// A reference, in six entries.
#[tactic(auto, unfolding(crate::specs::Rows::with_reference))]
fn put_reference(alloc: Global, pool: &mut Vec<Entry>, reference: &Reference) -> Result<(), GivenUp>
    ensures { OnOk result (pool.new.items ≡ with_reference pool.old.items reference.now) }
{
    match *reference {
        Reference::Class(name) => {
            put_class(alloc, pool, name)?;
            put_unusable(pool)?;
            put_unusable(pool)
        }
        Reference::Text(text) => {
            pool.push(Entry::Text(index_ahead(pool, 1)))?;
            put_text(alloc, pool, text)?;
            put_unusable(pool)?;
            put_unusable(pool)
        }
        Reference::Method(class, name, descriptor) => {
            pool.push(Entry::Method(index_ahead(pool, 1), index_ahead(pool, 3)))?;
            put_class(alloc, pool, class)?;
            put_typed(alloc, pool, name, descriptor)
        }
    }
}

/// The interfaces.
pub fn put_interfaces(alloc: Global, pool: &mut Vec<Entry>, names: &[&str]) -> Result<(), GivenUp>
    ensures { OnOk result (pool.new.items ≡ fold (λ pool name. with_class pool name.now) pool.old.items names.now) }
{
    for name in names {
        put_class(alloc, pool, name)?;
    }
    Ok(())
}

/// The names and descriptors of the fields.
#[tactic(auto, unfolding(crate::specs::Rows::with_field))]
pub fn put_fields(alloc: Global, pool: &mut Vec<Entry>, fields: &[FieldRow]) -> Result<(), GivenUp>
    ensures { OnOk result (pool.new.items ≡ fold with_field pool.old.items fields.now) }
{
    for field in fields {
        put_member(alloc, pool, field.name, field.descriptor)?;
    }
    Ok(())
}

/// The names and descriptors of the methods.
#[tactic(auto, unfolding(crate::specs::Rows::with_method))]
pub fn put_methods(
    alloc: Global,
    pool: &mut Vec<Entry>,
    methods: &[MethodRow],
) -> Result<(), GivenUp>
    ensures { OnOk result (pool.new.items ≡ fold with_method pool.old.items methods.now) }
{
    for method in methods {
        put_member(alloc, pool, method.name, method.descriptor)?;
    }
    Ok(())
}

/// The references.
pub fn put_references(
    alloc: Global,
    pool: &mut Vec<Entry>,
    references: &[Reference],
) -> Result<(), GivenUp>
    ensures { OnOk result (pool.new.items ≡ fold with_reference pool.old.items references.now) }
{
    for reference in references {
        put_reference(alloc, pool, reference)?;
    }
    Ok(())
}
