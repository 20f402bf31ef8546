//! Fields (JVMS 4.5), the constants of static ones, and what fields and methods share.

ghost use Rattle.std.specs.Prelude.{◌≡◌, ◌+◌, ◌^◌, ◌<◌, length, map, Some, None, false, [], IfOk, OnOk};
ghost use Rattle.vx_pool.specs.Reading.{Gives, GivesBy, steps, behind};
ghost use Rattle.vx_desc.specs.Names.{is_field_name};
ghost use Rattle.vx_desc.specs.Descriptors.{is_field_descriptor};
ghost use Rattle.vx_pool.specs.Lookups.{entry_of, text};
ghost use Rattle.vx_class.specs.Members.{is_number_for, is_constant_for, constant_at, field_attribute_at, constant_among, lawful_at, field_at, fields_at};
ghost use Rattle.vx_class.specs.Numbers.{numbers_of, field_key};
ghost use Rattle.vx_class.specs.Rest.{field_behind};

use crate::class_file::Field;
use crate::code::{content, utf8};
use crate::flags::{STATIC, has};
use crate::numbers::{Taken, numbers_of, take};
use indexmap::IndexSet;
use std::alloc::Global;
use vx_desc::{Base, field_type};
use vx_list::Items;
use vx_pool::{ClassFault, Cursor, Entry, JudgedPool, Pool, entry_of, is_usable, refusal};

/// Whether an entry is a number of a type.
fn is_number_for(base: Base, pool: &Pool, index: u16) -> bool
    ensures { result ≡ is_number_for base (entry_of pool.now index) }
{
    match (base, entry_of(pool, index)) {
        (Base::Long, Some(Entry::Long(_))) => true,
        (Base::Double, Some(Entry::Double(_))) => true,
        (Base::Float, Some(Entry::Float(_))) => true,
        (Base::Int | Base::Short | Base::Char | Base::Byte | Base::Bool, Some(Entry::Integer(_))) =>
            true,
        _ => false,
    }
}

/// Whether an entry may be the constant of a field.
fn is_constant_for(descriptor: &[u8], pool: &Pool, index: u16) -> bool
    requires { length descriptor.now < 2 ^ 16 }
    ensures { result ≡ is_constant_for descriptor.now (entry_of pool.now index) }
{
    let Some(item) = field_type(descriptor) else {
        return false;
    };
    (item.dimensions == 0 && is_number_for(item.base, pool, index))
        || (matches!(entry_of(pool, index), Some(Entry::Text(_)))
            && descriptor == b"Ljava/lang/String;".as_slice())
}

/// The constant of a field whose attribute's name stands at `at`.
#[tactic(auto, unfolding(crate::specs::Members::constant_at))]
fn constant(
    pool: &Pool,
    descriptor: &[u8],
    found: Option<u16>,
    at: u64,
    cursor: &mut Cursor,
) -> Result<Option<u16>, ClassFault>
    requires { length descriptor.now < 2 ^ 16 }
    ensures { Gives result cursor.new (constant_at pool.now descriptor.now found at cursor.old) }
{
    if found.is_some() {
        return refusal(at, 12);
    }
    if cursor.u4()? != 2 {
        return refusal(at, 12);
    }
    let place = cursor.at();
    let index = cursor.u2()?;
    if !is_usable(pool, index) {
        return refusal(place, 5);
    }
    if !is_constant_for(descriptor, pool, index) {
        return refusal(place, 6);
    }
    Ok(Some(index))
}

/// An attribute of a field: its constant, where it is static.
#[tactic(auto, unfolding(crate::specs::Members::field_attribute_at))]
fn field_attribute(
    pool: &Pool,
    is_static: bool,
    descriptor: &[u8],
    found: Option<u16>,
    cursor: &mut Cursor,
) -> Result<Option<u16>, ClassFault>
    requires { length descriptor.now < 2 ^ 16 }
    ensures { Gives result cursor.new (field_attribute_at pool.now is_static descriptor.now found cursor.old) }
{
    let at = cursor.at();
    let (_, name) = utf8(pool, cursor)?;
    if is_static && name == b"ConstantValue".as_slice() {
        return constant(pool, descriptor, found, at, cursor);
    }
    content(cursor)?;
    Ok(found)
}

fn field_attributes(
    pool: &Pool,
    is_static: bool,
    descriptor: &[u8],
    count: u16,
    cursor: &mut Cursor,
) -> Result<Option<u16>, ClassFault>
    requires { length descriptor.now < 2 ^ 16 }
    ensures { Gives result cursor.new (steps (field_attribute_at pool.now is_static descriptor.now) None count cursor.old) }
{
    let mut found = None;
    for _ in 0..count {
        found = field_attribute(pool, is_static, descriptor, found, cursor)?;
    }
    Ok(found)
}

#[tactic(auto, unfolding(crate::specs::Members::lawful_at))]
fn field_name<'p>(pool: &JudgedPool<'p>, cursor: &mut Cursor) -> Result<(u16, &'p [u8]), ClassFault>
    ensures value { GivesBy (λ x. (x.0, x.1.now)) result cursor.new (lawful_at is_field_name 7 pool.now cursor.old) }
    ensures named { IfOk result (λ x. text pool.now x.0 ≡ Some x.1.now) }
{
    let at = cursor.at();
    let (index, name) = utf8(pool.pool(), cursor)?;
    if !pool.is_field_name(index) {
        return refusal(at, 7);
    }
    Ok((index, name))
}

#[tactic(auto, unfolding(crate::specs::Members::lawful_at))]
fn field_descriptor<'p>(
    pool: &JudgedPool<'p>,
    cursor: &mut Cursor,
) -> Result<(u16, &'p [u8]), ClassFault>
    ensures value { GivesBy (λ x. (x.0, x.1.now)) result cursor.new (lawful_at is_field_descriptor 8 pool.now cursor.old) }
    ensures named { IfOk result (λ x. text pool.now x.0 ≡ Some x.1.now) }
    ensures few { IfOk result (λ x. length x.1.now < 2 ^ 16) }
{
    let at = cursor.at();
    let (index, descriptor) = utf8(pool.pool(), cursor)?;
    if !pool.is_field_descriptor(index) {
        return refusal(at, 8);
    }
    Ok((index, descriptor))
}

/// The constant among the attributes of a field.
#[tactic(auto, unfolding(crate::specs::Members::constant_among))]
fn constant_among(
    pool: &Pool,
    is_static: bool,
    descriptor: &[u8],
    cursor: &mut Cursor,
) -> Result<Option<u16>, ClassFault>
    requires { length descriptor.now < 2 ^ 16 }
    ensures { Gives result cursor.new (constant_among pool.now is_static descriptor.now cursor.old) }
{
    let count = cursor.u2()?;
    field_attributes(pool, is_static, descriptor, count, cursor)
}

/// A field whose flags, name and descriptor are read.
fn field_behind(
    pool: &Pool,
    is_interface: bool,
    flags: u16,
    name: u16,
    descriptor: u16,
    text: &[u8],
    cursor: &mut Cursor,
) -> Result<Field, ClassFault>
    requires { length text.now < 2 ^ 16 }
    ensures value { Gives result cursor.new (field_behind pool.now is_interface flags name descriptor text.now cursor.old) }
    ensures key { IfOk result (λ f. (f.name ≡ name) × (f.descriptor ≡ descriptor)) }
{
    let is_static = is_interface || has(flags, STATIC);
    let constant = constant_among(pool, is_static, text, cursor)?;
    let constant = constant.unwrap_or(0);
    Ok(Field {
        flags,
        name,
        descriptor,
        constant,
    })
}

/// Puts the next field behind those before it, none of which has its name and its descriptor.
fn add_field(
    pool: &JudgedPool,
    numbers: &[usize],
    is_interface: bool,
    fields: &mut Vec<Field>,
    taken: &mut Taken,
    cursor: &mut Cursor,
) -> Result<(), ClassFault>
    requires numbers { numbers.now ≡ numbers_of pool.now }
    requires taken { taken.old.keys ≡ map (field_key numbers.now) fields.old.items }
    ensures value { GivesBy (λ _. fields.new.items) result cursor.new (behind (field_at pool.now is_interface) fields.old.items cursor.old) }
    ensures taken { OnOk result (taken.new.keys ≡ map (field_key numbers.now) fields.new.items) }
{
    let at = cursor.at();
    let flags = cursor.u2()?;
    let name = field_name(pool, cursor)?;
    let descriptor = field_descriptor(pool, cursor)?;
    let is_new = take(taken, numbers, name.0, descriptor.0)?;
    if !is_new {
        return refusal(at, 12);
    }
    let field = field_behind(
        pool.pool(),
        is_interface,
        flags,
        name.0,
        descriptor.0,
        descriptor.1,
        cursor,
    )?;
    fields.push(field)?;
    Ok(())
}

fn some_fields(
    alloc: Global,
    pool: &JudgedPool,
    numbers: &[usize],
    is_interface: bool,
    count: u16,
    taken: &mut Taken,
    cursor: &mut Cursor,
) -> Result<Items<Field>, ClassFault>
    requires numbers { numbers.now ≡ numbers_of pool.now }
    requires taken { taken.old.keys ≡ [] }
    ensures { Gives result cursor.new (steps (behind (field_at pool.now is_interface)) [] count cursor.old) }
{
    let mut fields = Vec::new(alloc);
    for _ in 0..count {
        add_field(pool, numbers, is_interface, &mut fields, taken, cursor)?;
    }
    Ok(Items::of(fields))
}

#[tactic(auto, unfolding(crate::specs::Members::fields_at))]
pub fn fields(
    alloc: Global,
    pool: &Pool,
    is_interface: bool,
    cursor: &mut Cursor,
) -> Result<Items<Field>, ClassFault>
    ensures { Gives result cursor.new (fields_at pool.now is_interface cursor.old) }
{
    let count = cursor.u2()?;
    let judged = JudgedPool::of(alloc, pool)?;
    let numbers = numbers_of(alloc, pool)?;
    let mut taken = IndexSet::new(alloc);
    some_fields(
        alloc,
        &judged,
        numbers.as_slice(),
        is_interface,
        count,
        &mut taken,
        cursor,
    )
}
