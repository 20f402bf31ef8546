//! Methods (JVMS 4.6).

ghost use Rattle.std.specs.Prelude.{◌≡◌, ◌+◌, ◌^◌, ◌<◌, length, map, is_some, Some, None, [], IfOk, OnOk, if◌then◌else◌};
ghost use Rattle.vx_pool.specs.Reading.{Gives, GivesBy, steps, behind};
ghost use Rattle.vx_desc.specs.Names.{is_method_name};
ghost use Rattle.vx_desc.specs.Descriptors.{is_method_descriptor};
ghost use Rattle.vx_pool.specs.Lookups.{text};
ghost use Rattle.vx_class.specs.Members.{lawful_at, method_attribute_at, code_among, is_static, takes_code, is_lawful_initialiser, method_at, methods_at};
ghost use Rattle.vx_class.specs.Numbers.{numbers_of, method_key};
ghost use Rattle.vx_class.specs.Rest.{method_behind};

use crate::class_file::{Code, Method};
use crate::code::{content, read_code, utf8};
use crate::flags::{ABSTRACT, NATIVE, STATIC, has};
use crate::numbers::{Taken, numbers_of, take};
use indexmap::IndexSet;
use std::alloc::{AllocError, Global};
use vx_desc::{is_clinit, is_init, returns_nothing};
use vx_list::Items;
use vx_pool::{ClassFault, Cursor, JudgedPool, Pool, refusal};

#[tactic(auto, unfolding(crate::specs::Members::lawful_at))]
fn method_name<'p>(
    pool: &JudgedPool<'p>,
    cursor: &mut Cursor,
) -> Result<(u16, &'p [u8]), ClassFault>
    ensures value { GivesBy (λ x. (x.0, x.1.now)) result cursor.new (lawful_at is_method_name 7 pool.now cursor.old) }
    ensures named { IfOk result (λ x. text pool.now x.0 ≡ Some x.1.now) }
{
    let at = cursor.at();
    let (index, name) = utf8(pool.pool(), cursor)?;
    if !pool.is_method_name(index) {
        return refusal(at, 7);
    }
    Ok((index, name))
}

#[tactic(auto, unfolding(crate::specs::Members::lawful_at))]
fn method_descriptor<'p>(
    pool: &JudgedPool<'p>,
    cursor: &mut Cursor,
) -> Result<(u16, &'p [u8]), ClassFault>
    ensures value { GivesBy (λ x. (x.0, x.1.now)) result cursor.new (lawful_at is_method_descriptor 8 pool.now cursor.old) }
    ensures named { IfOk result (λ x. text pool.now x.0 ≡ Some x.1.now) }
    ensures few { IfOk result (λ x. length x.1.now < 2 ^ 16) }
{
    let at = cursor.at();
    let (index, descriptor) = utf8(pool.pool(), cursor)?;
    if !pool.is_method_descriptor(index) {
        return refusal(at, 8);
    }
    Ok((index, descriptor))
}

fn is_static(flags: u16, name: &[u8]) -> bool
    ensures { result ≡ is_static flags name.now }
{
    is_clinit(name) || has(flags, STATIC)
}

fn takes_code(flags: u16, name: &[u8]) -> bool
    ensures { result ≡ takes_code flags name.now }
{
    is_clinit(name) || !(has(flags, ABSTRACT) || has(flags, NATIVE))
}

/// The receiver and the arguments, which are of so many slots.
fn slots_of(flags: u16, name: &[u8], arguments: u8) -> u16
    ensures { result ≡ arguments + (if is_static flags name.now then 0 else 1) }
{
    if is_static(flags, name) {
        u16::from(arguments)
    } else {
        u16::from(arguments) + 1
    }
}

fn is_lawful_initialiser(alloc: Global, name: &[u8], descriptor: &[u8]) -> Result<bool, AllocError>
    requires { length descriptor.now < 2 ^ 16 }
    ensures { IfOk result (λ b. b ≡ is_lawful_initialiser name.now descriptor.now) }
{
    if is_clinit(name) && descriptor != b"()V".as_slice() {
        return Ok(false);
    }
    if is_init(name) {
        return returns_nothing(alloc, descriptor);
    }
    Ok(true)
}

/// An attribute of a method: its code, where it may have code.
#[tactic(auto, unfolding(crate::specs::Members::method_attribute_at))]
fn method_attribute(
    alloc: Global,
    pool: &JudgedPool,
    major: u16,
    slots: u16,
    takes_code: bool,
    found: Option<Code>,
    cursor: &mut Cursor,
) -> Result<Option<Code>, ClassFault>
    ensures { Gives result cursor.new (method_attribute_at pool.now major slots takes_code found cursor.old) }
{
    let at = cursor.at();
    let (_, name) = utf8(pool.pool(), cursor)?;
    if name == b"Code".as_slice() {
        if !takes_code || found.is_some() {
            return refusal(at, 12);
        }
        return Ok(Some(read_code(alloc, pool, major, slots, at, cursor)?));
    }
    content(cursor)?;
    Ok(found)
}

fn method_attributes(
    alloc: Global,
    pool: &JudgedPool,
    major: u16,
    slots: u16,
    takes_code: bool,
    count: u16,
    cursor: &mut Cursor,
) -> Result<Option<Code>, ClassFault>
    ensures { Gives result cursor.new (steps (method_attribute_at pool.now major slots takes_code) None count cursor.old) }
{
    let mut found = None;
    for _ in 0..count {
        found = method_attribute(alloc, pool, major, slots, takes_code, found, cursor)?;
    }
    Ok(found)
}

/// The code among the attributes of a method.
#[tactic(auto, unfolding(crate::specs::Members::code_among))]
fn code_among(
    alloc: Global,
    pool: &JudgedPool,
    major: u16,
    slots: u16,
    takes_code: bool,
    cursor: &mut Cursor,
) -> Result<Option<Code>, ClassFault>
    ensures { Gives result cursor.new (code_among pool.now major slots takes_code cursor.old) }
{
    let count = cursor.u2()?;
    method_attributes(alloc, pool, major, slots, takes_code, count, cursor)
}

/// A method whose flags, name and descriptor are read; it stands at `at`, and its descriptor at `place`.
fn method_behind(
    alloc: Global,
    pool: &JudgedPool,
    major: u16,
    at: u64,
    place: u64,
    flags: u16,
    name: u16,
    name_text: &[u8],
    descriptor: u16,
    descriptor_text: &[u8],
    cursor: &mut Cursor,
) -> Result<Method, ClassFault>
    requires named { text pool.now descriptor ≡ Some descriptor_text.now }
    requires few { length descriptor_text.now < 2 ^ 16 }
    ensures value { Gives result cursor.new (method_behind pool.now major at place flags name name_text.now descriptor descriptor_text.now cursor.old) }
    ensures key { IfOk result (λ m. (m.name ≡ name) × (m.descriptor ≡ descriptor)) }
{
    if !is_lawful_initialiser(alloc, name_text, descriptor_text)? {
        return refusal(place, 8);
    }
    let arguments = pool.slots(descriptor).unwrap_or(0);
    let slots = slots_of(flags, name_text, arguments);
    let takes_code = takes_code(flags, name_text);
    let code = code_among(alloc, pool, major, slots, takes_code, cursor)?;
    if takes_code && code.is_none() {
        return refusal(at, 12);
    }
    Ok(Method {
        flags,
        name,
        descriptor,
        code,
    })
}

/// Puts the next method behind those before it, none of which has its name and its descriptor.
fn add_method(
    alloc: Global,
    pool: &JudgedPool,
    numbers: &[usize],
    major: u16,
    methods: &mut Vec<Method>,
    taken: &mut Taken,
    cursor: &mut Cursor,
) -> Result<(), ClassFault>
    requires numbers { numbers.now ≡ numbers_of pool.now }
    requires taken { taken.old.keys ≡ map (method_key numbers.now) methods.old.items }
    ensures value { GivesBy (λ _. methods.new.items) result cursor.new (behind (method_at pool.now major) methods.old.items cursor.old) }
    ensures taken { OnOk result (taken.new.keys ≡ map (method_key numbers.now) methods.new.items) }
{
    let at = cursor.at();
    let flags = cursor.u2()?;
    let name = method_name(pool, cursor)?;
    let place = cursor.at();
    let descriptor = method_descriptor(pool, cursor)?;
    let is_new = take(taken, numbers, name.0, descriptor.0)?;
    if !is_new {
        return refusal(at, 12);
    }
    methods.push(method_behind(
        alloc,
        pool,
        major,
        at,
        place,
        flags,
        name.0,
        name.1,
        descriptor.0,
        descriptor.1,
        cursor,
    )?)?;
    Ok(())
}

fn some_methods(
    alloc: Global,
    pool: &JudgedPool,
    numbers: &[usize],
    major: u16,
    count: u16,
    taken: &mut Taken,
    cursor: &mut Cursor,
) -> Result<Items<Method>, ClassFault>
    requires numbers { numbers.now ≡ numbers_of pool.now }
    requires taken { taken.old.keys ≡ [] }
    ensures { Gives result cursor.new (steps (behind (method_at pool.now major)) [] count cursor.old) }
{
    let mut methods = Vec::new(alloc);
    for _ in 0..count {
        add_method(alloc, pool, numbers, major, &mut methods, taken, cursor)?;
    }
    Ok(Items::of(methods))
}

#[tactic(auto, unfolding(crate::specs::Members::methods_at))]
pub fn methods(
    alloc: Global,
    pool: &Pool,
    major: u16,
    cursor: &mut Cursor,
) -> Result<Items<Method>, ClassFault>
    ensures { Gives result cursor.new (methods_at pool.now major cursor.old) }
{
    let count = cursor.u2()?;
    let judged = JudgedPool::of(alloc, pool)?;
    let numbers = numbers_of(alloc, pool)?;
    let mut taken = IndexSet::new(alloc);
    some_methods(
        alloc,
        &judged,
        numbers.as_slice(),
        major,
        count,
        &mut taken,
        cursor,
    )
}
