//! The pool of a class: its parts, each put behind those that are there, which want of memory leaves as they were. The index at which a part
//! stands is given.

ghost use Rattle.std.specs.Prelude.{◌≡◌, ◌++◌, ◌∷◌, ◌+◌, ◌*◌, ◌<◌, ◌^◌, [], OnErr, OnOk, length};
ghost use Rattle.vx_gen.specs.Parts.{AreShort, class_part, field_parts, first_of, option_parts, reference_part, signature_part};

use std::alloc::{AllocError, Global};
use vx_list::or_cut_back;
use vx_pool::{Entry, Utf8};

/// The kinds of members that a reference names.
#[derive(Clone, Copy)]
pub enum Kind {
    Field,
    Method,
    InterfaceMethod,
}

/// Puts a text.
fn put_text(alloc: Global, pool: &mut Vec<Entry>, text: &str) -> Result<(), AllocError>
    requires { length text.now < 2 ^ 16 }
    ensures ok { OnOk result (pool.new.items ≡ pool.old.items ++ Entry.Utf8 text.now ∷ []) }
    ensures err { OnErr result (pool.new.items ≡ pool.old.items) }
{
    let bytes = Vec::from_slice(alloc, text.as_bytes())?;
    pool.push(Entry::Utf8(Utf8::of(bytes)))?;
    Ok(())
}

/// Puts a class, with its name right behind it.
pub fn put_class(
    alloc: Global,
    pool: &mut Vec<Entry>,
    at: u16,
    name: &str,
) -> Result<(), AllocError>
    requires fits { at + 1 < 65536 }
    requires short { length name.now < 2 ^ 16 }
    ensures ok { OnOk result (pool.new.items ≡ pool.old.items ++ class_part at name.now) }
    ensures err { OnErr result (pool.new.items ≡ pool.old.items) }
{
    let held = pool.len();
    pool.push(Entry::Class(at + 1))?;
    or_cut_back(put_text(alloc, pool, name), pool, held)
}

/// Puts the name and the descriptor of a member.
pub fn put_signature(
    alloc: Global,
    pool: &mut Vec<Entry>,
    name: &str,
    descriptor: &str,
) -> Result<(), AllocError>
    requires name { length name.now < 2 ^ 16 }
    requires descriptor { length descriptor.now < 2 ^ 16 }
    ensures ok { OnOk result (pool.new.items ≡ pool.old.items ++ signature_part name.now descriptor.now) }
    ensures err { OnErr result (pool.new.items ≡ pool.old.items) }
{
    let held = pool.len();
    put_text(alloc, pool, name)?;
    or_cut_back(put_text(alloc, pool, descriptor), pool, held)
}

/// The first entry of a reference.
fn first_of(kind: Kind, class: u16, typed: u16) -> Entry
    ensures { result ≡ first_of kind class typed }
{
    match kind {
        Kind::Field => Entry::Field(class, typed),
        Kind::Method => Entry::Method(class, typed),
        Kind::InterfaceMethod => Entry::InterfaceMethod(class, typed),
    }
}

/// Puts a name and type, with both right behind it.
fn put_typed(
    alloc: Global,
    pool: &mut Vec<Entry>,
    at: u16,
    name: &str,
    descriptor: &str,
) -> Result<(), AllocError>
    requires fits { at + 2 < 65536 }
    requires name { length name.now < 2 ^ 16 }
    requires descriptor { length descriptor.now < 2 ^ 16 }
    ensures ok { OnOk result (pool.new.items ≡ pool.old.items ++ Entry.NameAndType (at + 1) (at + 2) ∷ signature_part name.now descriptor.now) }
    ensures err { OnErr result (pool.new.items ≡ pool.old.items) }
{
    let held = pool.len();
    pool.push(Entry::NameAndType(at + 1, at + 2))?;
    or_cut_back(put_signature(alloc, pool, name, descriptor), pool, held)
}

/// Puts a reference to a member of a class, by its name and its descriptor: six entries.
pub fn put_reference(
    alloc: Global,
    pool: &mut Vec<Entry>,
    at: u16,
    kind: Kind,
    class: &str,
    name: &str,
    descriptor: &str,
) -> Result<(), AllocError>
    requires fits { at + 5 < 65536 }
    requires class { length class.now < 2 ^ 16 }
    requires name { length name.now < 2 ^ 16 }
    requires descriptor { length descriptor.now < 2 ^ 16 }
    ensures ok { OnOk result (pool.new.items ≡ pool.old.items ++ reference_part at kind class.now name.now descriptor.now) }
    ensures err { OnErr result (pool.new.items ≡ pool.old.items) }
{
    let held = pool.len();
    pool.push(first_of(kind, at + 1, at + 3))?;
    or_cut_back(put_class(alloc, pool, at + 1, class), pool, held)?;
    or_cut_back(put_typed(alloc, pool, at + 3, name, descriptor), pool, held)
}

/// Puts the names and descriptors of the fields of options.
pub fn put_fields(alloc: Global, pool: &mut Vec<Entry>, names: &[&str]) -> Result<(), AllocError>
    requires { AreShort names.now }
    ensures ok { OnOk result (pool.new.items ≡ pool.old.items ++ field_parts names.now) }
    ensures err { OnErr result (pool.new.items ≡ pool.old.items) }
{
    let held = pool.len();
    for name in names {
        or_cut_back(put_signature(alloc, pool, name, "Z"), pool, held)?;
    }
    Ok(())
}

/// Puts references to the fields of options.
pub fn put_options(
    alloc: Global,
    pool: &mut Vec<Entry>,
    at: u16,
    names: &[&str],
) -> Result<(), AllocError>
    requires short { AreShort names.now }
    requires fits { at + 6 * length names.now < 65536 }
    ensures ok { OnOk result (pool.new.items ≡ pool.old.items ++ option_parts at names.now) }
    ensures err { OnErr result (pool.new.items ≡ pool.old.items) }
{
    let held = pool.len();
    let mut index = at;
    for name in names {
        let put = put_reference(alloc, pool, index, Kind::Field, "Main", name, "Z");
        or_cut_back(put, pool, held)?;
        index += 6;
    }
    Ok(())
}
