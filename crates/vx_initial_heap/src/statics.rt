//! What static fields begin with (JVMS 2.3, 2.4, 4.7.2).

ghost use Rattle.std.specs.Prelude.{◌≡◌, ◌&&◌, ◌<◌, [], bytes_eq, map, suc, true, IfOk, IfSome};
ghost use Rattle.std.specs.List.{AllZip};
ghost use Rattle.vx_pool.specs.Lookups.{entry_of};
ghost use Rattle.vx_initial_heap.specs.First.{empty_text, is_among, value_in, IsFirstStatic};
ghost use Rattle.vx_java.specs.FirstObjects.{constant_of, first_words, literal_object, plain_static};
ghost use Rattle.vx_java.specs.Step.{core_static, not_core};
ghost use Rattle.vx_link.specs.Parts.{class_at};
ghost use Rattle.vx_list.specs.Places.{item_or};

use crate::defaults::default_of;
use bitflags::Flags;
use std::alloc::{AllocError, Global};
use vx_java::parts::name_of_class;
use vx_link::{AccessFlags, LinkedField, Program};
use vx_list::Items;
use vx_pool::{Entry, Pool, entry_of};
use vx_value::{ClassId, Slot};

/// What a static field begins with: one value at each configuration, or that of an option as an int.
#[derive(Clone, Copy)]
pub enum FirstStatic {
    Same(Slot),
    OfOption(u32),
}

fn has_names(class: &[u8], name: &[u8], of_class: &[u8], of_name: &[u8]) -> bool
    ensures { result ≡ (bytes_eq of_class.now class.now && bytes_eq of_name.now name.now) }
{
    of_class == class && of_name == name
}

/// The first object with which a static field of a core class begins.
fn core_static(class: &[u8], name: &[u8]) -> Option<u64>
    ensures value { result ≡ core_static class.now name.now }
    ensures within { IfSome result (λ object. object < 260) }
{
    if has_names(class, name, b"java/lang/System", b"out") {
        Some(0)
    } else if has_names(class, name, b"java/lang/System", b"err") {
        Some(1)
    } else if has_names(class, name, b"java/lang/Boolean", b"TRUE") {
        Some(259)
    } else if has_names(class, name, b"java/lang/Boolean", b"FALSE") {
        Some(258)
    } else {
        None
    }
}

/// The number of the object of an entry of a class's pool, or 0 where there is no such entry.
fn object_of(literals: &[Items<u64>], class: ClassId, entry: u16) -> u64
    ensures { result ≡ item_or (item_or literals.now class.0 []) entry 0 }
{
    match literals.get(class.0 as usize) {
        Some(objects) => objects.get(entry as usize).copied().unwrap_or(0),
        None => 0,
    }
}

/// The value of a constant, which is an entry of the pool of a class.
fn constant_of(
    program: &Program,
    literals: &[Items<u64>],
    class: ClassId,
    pool: &Pool,
    constant: u16,
) -> Slot
    requires pool { pool.now ≡ (class_at program.now class.0).pool }
    requires literals { literals.now ≡ map (λ c. map (literal_object program.now c.pool) c.pool.entries) program.now.classes }
    ensures value { value_in empty_text result ≡ constant_of program.now pool.now (entry_of pool.now constant) }
    ensures held { is_among (suc (first_words program.now)) 1 result ≡ true }
{
    match entry_of(pool, constant) {
        Some(Entry::Integer(value)) => Slot::Int(*value),
        Some(Entry::Long(value)) => Slot::Long(*value),
        Some(Entry::Text(_)) => Slot::Ref(object_of(literals, class, constant)),
        _ => Slot::Top,
    }
}

/// The value of a static field that is neither an option's nor one of a core class with a first object.
fn plain_static(program: &Program, literals: &[Items<u64>], field: &LinkedField) -> Slot
    requires { literals.now ≡ map (λ c. map (literal_object program.now c.pool) c.pool.entries) program.now.classes }
    ensures value { value_in empty_text result ≡ plain_static program.now field.now }
    ensures held { is_among (suc (first_words program.now)) 1 result ≡ true }
{
    if field.constant == 0 {
        return default_of(field.descriptor.bytes());
    }
    match program.class(field.class) {
        Some(class) => constant_of(program, literals, field.class, &class.pool, field.constant),
        None => Slot::Top,
    }
}

/// The value of a static field that is no option's.
fn same_static(program: &Program, literals: &[Items<u64>], field: &LinkedField) -> Slot
    requires { literals.now ≡ map (λ c. map (literal_object program.now c.pool) c.pool.entries) program.now.classes }
    ensures value { value_in empty_text result ≡ not_core program.now field.now (core_static (class_at program.now field.now.class.0).name field.now.name) }
    ensures held { is_among (suc (first_words program.now)) 1 result ≡ true }
{
    match core_static(name_of_class(program, field.class), field.name.bytes()) {
        Some(object) => Slot::Ref(object),
        None => plain_static(program, literals, field),
    }
}

/// What a field begins with, which for an instance field is nothing.
fn first_static(program: &Program, literals: &[Items<u64>], field: &LinkedField) -> FirstStatic
    requires { literals.now ≡ map (λ c. map (literal_object program.now c.pool) c.pool.entries) program.now.classes }
    ensures { IsFirstStatic program.now field.now result }
{
    if !field.flags.contains(AccessFlags::STATIC) {
        return FirstStatic::Same(Slot::Top);
    }
    match field.option {
        Some(option) => FirstStatic::OfOption(option),
        None => FirstStatic::Same(same_static(program, literals, field)),
    }
}

/// What each field of a program begins with, from the objects of its literals, where text 0 is the empty one.
pub fn first_statics(
    alloc: Global,
    program: &Program,
    literals: &[Items<u64>],
) -> Result<Vec<FirstStatic>, AllocError>
    requires { literals.now ≡ map (λ c. map (literal_object program.now c.pool) c.pool.entries) program.now.classes }
    ensures { IfOk result (λ statics. AllZip (IsFirstStatic program.now) program.now.fields statics.items) }
{
    let mut statics = Vec::new(alloc);
    for field in program.fields.as_slice() {
        statics.push(first_static(program, literals, field))?;
    }
    Ok(statics)
}
