//! The checks of the pool's entries (JVMS 4.4): what each names, in the order in which a class file is checked.

ghost use Rattle.std.specs.Prelude.{◌≡◌, ◌+◌, ◌^◌, ◌<◌, sum_by};
ghost use Rattle.vx_pool.specs.Reading.{Answers};
ghost use Rattle.vx_pool.specs.Pool.{size};
ghost use Rattle.vx_pool.specs.declared.pool.Entry.TheVariants.{Class, Text, Field, Method, MethodHandle, MethodType, NameAndType};
ghost use Rattle.vx_pool.specs.Entries.{kind_checks, checks_of, entries_checked};
ghost use Rattle.vx_pool.specs.Checks.{first_failing};

use crate::judged::JudgedPool;
use crate::lookups::{is_class, is_name_and_type, is_usable, name_and_type, text};
use crate::{ClassFault, Entry, Pool, refusal};
use std::alloc::Global;

fn class_entry(pool: &JudgedPool, index: u16, at: u64) -> Result<(), ClassFault>
    ensures { Answers result (first_failing at (checks_of pool.now (Class index))) }
{
    if !is_usable(pool.pool(), index) {
        return refusal(at, 5);
    }
    match text(pool.pool(), index) {
        None => refusal(at, 6),
        Some(_) if !pool.is_class_text(index) => refusal(at, 7),
        Some(_) => Ok(()),
    }
}

fn text_entry(pool: &Pool, index: u16, at: u64) -> Result<(), ClassFault>
    ensures { Answers result (first_failing at (checks_of pool.now (Text index))) }
{
    if !is_usable(pool, index) {
        return refusal(at, 5);
    }
    match text(pool, index) {
        None => refusal(at, 6),
        Some(_) => Ok(()),
    }
}

fn method_type_entry(pool: &JudgedPool, index: u16, at: u64) -> Result<(), ClassFault>
    ensures { Answers result (first_failing at (checks_of pool.now (MethodType index))) }
{
    if !is_usable(pool.pool(), index) {
        return refusal(at, 5);
    }
    match text(pool.pool(), index) {
        None => refusal(at, 6),
        Some(_) if !pool.is_method_descriptor(index) => refusal(at, 8),
        Some(_) => Ok(()),
    }
}

/// The checks of an entry that names a member, before those of its name and descriptor.
fn member_entry(pool: &Pool, class: u16, member: u16, at: u64) -> Result<(), ClassFault>
    ensures { Answers result (first_failing at (kind_checks pool.now class member)) }
{
    if !(is_usable(pool, class) && is_usable(pool, member)) {
        return refusal(at, 5);
    }
    if !(is_class(pool, class) && is_name_and_type(pool, member)) {
        return refusal(at, 6);
    }
    Ok(())
}

fn field_entry(pool: &JudgedPool, class: u16, member: u16, at: u64) -> Result<(), ClassFault>
    ensures { Answers result (first_failing at (checks_of pool.now (Field class member))) }
{
    member_entry(pool.pool(), class, member, at)?;
    match name_and_type(pool.pool(), member) {
        Some((name, _)) if !pool.is_field_name(name) => refusal(at, 7),
        Some((_, descriptor)) if !pool.is_field_descriptor(descriptor) => refusal(at, 8),
        _ => Ok(()),
    }
}

fn method_entry(pool: &JudgedPool, class: u16, member: u16, at: u64) -> Result<(), ClassFault>
    ensures { Answers result (first_failing at (checks_of pool.now (Method class member))) }
{
    member_entry(pool.pool(), class, member, at)?;
    match name_and_type(pool.pool(), member) {
        Some((name, _)) if !pool.is_method_name(name) => refusal(at, 7),
        Some((_, descriptor)) if !pool.is_method_descriptor(descriptor) => refusal(at, 8),
        _ => Ok(()),
    }
}

fn name_and_type_entry(
    pool: &JudgedPool,
    name: u16,
    descriptor: u16,
    at: u64,
) -> Result<(), ClassFault>
    ensures { Answers result (first_failing at (checks_of pool.now (NameAndType name descriptor))) }
{
    if !(is_usable(pool.pool(), name) && is_usable(pool.pool(), descriptor)) {
        return refusal(at, 5);
    }
    match (text(pool.pool(), name), text(pool.pool(), descriptor)) {
        (Some(_), Some(_)) => {
            if !pool.is_field_name(name) {
                refusal(at, 7)
            } else if pool.is_field_descriptor(descriptor)
                || pool.is_method_descriptor(descriptor)
            {
                Ok(())
            } else {
                refusal(at, 8)
            }
        }
        _ => refusal(at, 6),
    }
}

fn usable_entry(pool: &Pool, index: u16, at: u64) -> Result<(), ClassFault>
    ensures { Answers result (first_failing at (checks_of pool.now (MethodHandle 0 index))) }
{
    if is_usable(pool, index) {
        Ok(())
    } else {
        refusal(at, 5)
    }
}

/// The checks of an entry whose tag stands at `at`.
fn entry(pool: &JudgedPool, entry: &Entry, at: u64) -> Result<(), ClassFault>
    ensures { Answers result (first_failing at (checks_of pool.now entry.now)) }
{
    match entry {
        Entry::Class(name) => class_entry(pool, *name, at),
        Entry::Text(text) => text_entry(pool.pool(), *text, at),
        Entry::Field(class, member) => field_entry(pool, *class, *member, at),
        Entry::Method(class, member) | Entry::InterfaceMethod(class, member) => {
            method_entry(pool, *class, *member, at)
        }
        Entry::NameAndType(name, descriptor) => name_and_type_entry(pool, *name, *descriptor, at),
        Entry::MethodHandle(_, index) | Entry::InvokeDynamic(_, index) => {
            usable_entry(pool.pool(), *index, at)
        }
        Entry::MethodType(descriptor) => method_type_entry(pool, *descriptor, at),
        _ => Ok(()),
    }
}

/// How many bytes an entry takes.
fn size(entry: &Entry) -> u64
    ensures { result ≡ size entry.now }
{
    match entry {
        Entry::Unusable => 0,
        Entry::Utf8(text) => 3 + text.as_slice().len() as u64,
        Entry::Integer(_) | Entry::Float(_) => 5,
        Entry::Long(_) | Entry::Double(_) => 9,
        Entry::Class(_) | Entry::Text(_) | Entry::MethodType(_) => 3,
        Entry::MethodHandle(_, _) => 4,
        _ => 5,
    }
}

/// The checks of the entries, where the texts are judged.
fn check_each(pool: &JudgedPool, start: u64) -> Result<(), ClassFault>
    requires { start + sum_by size pool.now.entries < 2 ^ 64 }
    ensures { Answers result (entries_checked pool.now pool.now.entries start) }
{
    let mut at = start;
    for item in pool.pool().entries.as_slice() {
        entry(pool, item, at)?;
        at += size(item);
    }
    Ok(())
}

/// The checks of the entries, the first of which stands at `start`.
pub fn check_entries(alloc: Global, pool: &Pool, start: u64) -> Result<(), ClassFault>
    requires { start + sum_by size pool.now.entries < 2 ^ 64 }
    ensures { Answers result (entries_checked pool.now pool.now.entries start) }
{
    let judged = JudgedPool::of(alloc, pool)?;
    check_each(&judged, start)
}
