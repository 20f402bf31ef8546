//! The constant pool (JVMS 4.4), and the names that attributes have in it. Want of memory leaves the bytes that are there as they were.

ghost use Rattle.std.specs.Prelude.{◌≡◌, ◌++◌, OnErr, OnOk, position};
ghost use Rattle.std.specs.Int.{cast_unsigned};
ghost use Rattle.std.specs.List.{flat_map};
ghost use Rattle.byteorder.specs.Endian.{big_bytes};
ghost use Rattle.vx_class.specs.Spelling.{u2};
ghost use Rattle.vx_pool.specs.Spelling.{entry_bytes, pool_bytes};
ghost use Rattle.vx_writer.specs.Written.{is_text_entry, least_place};

use crate::numbers::{put, put_count, put_u1, put_u2, put_u4, put_u8};
use std::alloc::AllocError;
use vx_list::or_cut_back;
use vx_pool::{Entry, Pool};

/// A tag and an index.
fn put_one(out: &mut Vec<u8>, tag: u8, index: u16) -> Result<(), AllocError>
    ensures ok { OnOk result (out.new.items ≡ out.old.items ++ (big_bytes 1 tag ++ u2 index)) }
    ensures err { OnErr result (out.new.items ≡ out.old.items) }
{
    let held = out.len();
    put_u1(out, tag)?;
    or_cut_back(put_u2(out, index), out, held)
}

/// A tag and two indices.
fn put_two(out: &mut Vec<u8>, tag: u8, first: u16, second: u16) -> Result<(), AllocError>
    ensures ok { OnOk result (out.new.items ≡ out.old.items ++ (big_bytes 1 tag ++ (u2 first ++ u2 second))) }
    ensures err { OnErr result (out.new.items ≡ out.old.items) }
{
    let held = out.len();
    put_one(out, tag, first)?;
    or_cut_back(put_u2(out, second), out, held)
}

/// A tag and a number of four bytes.
fn put_four(out: &mut Vec<u8>, tag: u8, number: u32) -> Result<(), AllocError>
    ensures ok { OnOk result (out.new.items ≡ out.old.items ++ (big_bytes 1 tag ++ big_bytes 4 number)) }
    ensures err { OnErr result (out.new.items ≡ out.old.items) }
{
    let held = out.len();
    put_u1(out, tag)?;
    or_cut_back(put_u4(out, number), out, held)
}

/// A tag and a number of eight bytes.
fn put_eight(out: &mut Vec<u8>, tag: u8, number: u64) -> Result<(), AllocError>
    ensures ok { OnOk result (out.new.items ≡ out.old.items ++ (big_bytes 1 tag ++ big_bytes 8 number)) }
    ensures err { OnErr result (out.new.items ≡ out.old.items) }
{
    let held = out.len();
    put_u1(out, tag)?;
    or_cut_back(put_u8(out, number), out, held)
}

/// A text with its length.
fn put_text(out: &mut Vec<u8>, text: &[u8]) -> Result<(), AllocError>
    ensures ok { OnOk result (out.new.items ≡ out.old.items ++ entry_bytes (Entry.Utf8 text.now)) }
    ensures err { OnErr result (out.new.items ≡ out.old.items) }
{
    let held = out.len();
    put_u1(out, 1)?;
    or_cut_back(put_count(out, text.len()), out, held)?;
    or_cut_back(put(out, text), out, held)
}

/// A method handle: its kind and an index.
fn put_handle(out: &mut Vec<u8>, kind: u8, index: u16) -> Result<(), AllocError>
    ensures ok { OnOk result (out.new.items ≡ out.old.items ++ entry_bytes (Entry.MethodHandle kind index)) }
    ensures err { OnErr result (out.new.items ≡ out.old.items) }
{
    let held = out.len();
    put_u1(out, 15)?;
    or_cut_back(put_u1(out, kind), out, held)?;
    or_cut_back(put_u2(out, index), out, held)
}

fn put_entry(out: &mut Vec<u8>, entry: &Entry) -> Result<(), AllocError>
    ensures ok { OnOk result (out.new.items ≡ out.old.items ++ entry_bytes entry.now) }
    ensures err { OnErr result (out.new.items ≡ out.old.items) }
{
    match entry {
        Entry::Unusable => Ok(()),
        Entry::Utf8(text) => put_text(out, text.as_slice()),
        Entry::Integer(number) => put_four(out, 3, number.cast_unsigned()),
        Entry::Float(bits) => put_four(out, 4, *bits),
        Entry::Long(number) => put_eight(out, 5, number.cast_unsigned()),
        Entry::Double(bits) => put_eight(out, 6, *bits),
        Entry::Class(name) => put_one(out, 7, *name),
        Entry::Text(text) => put_one(out, 8, *text),
        Entry::Field(class, name) => put_two(out, 9, *class, *name),
        Entry::Method(class, name) => put_two(out, 10, *class, *name),
        Entry::InterfaceMethod(class, name) => put_two(out, 11, *class, *name),
        Entry::NameAndType(name, descriptor) => put_two(out, 12, *name, *descriptor),
        Entry::MethodHandle(kind, index) => put_handle(out, *kind, *index),
        Entry::MethodType(descriptor) => put_one(out, 16, *descriptor),
        Entry::InvokeDynamic(bootstrap, name) => put_two(out, 18, *bootstrap, *name),
    }
}

fn put_entries(out: &mut Vec<u8>, entries: &[Entry]) -> Result<(), AllocError>
    ensures ok { OnOk result (out.new.items ≡ out.old.items ++ flat_map entry_bytes entries.now) }
    ensures err { OnErr result (out.new.items ≡ out.old.items) }
{
    let held = out.len();
    for entry in entries {
        or_cut_back(put_entry(out, entry), out, held)?;
    }
    Ok(())
}

/// The number of places and the entries.
pub fn put_pool(out: &mut Vec<u8>, pool: &Pool) -> Result<(), AllocError>
    ensures ok { OnOk result (out.new.items ≡ out.old.items ++ pool_bytes pool.now) }
    ensures err { OnErr result (out.new.items ≡ out.old.items) }
{
    let entries = pool.entries.as_slice();
    let held = out.len();
    put_count(out, entries.len())?;
    or_cut_back(put_entries(out, entries), out, held)
}

/// Whether an entry is this text.
fn is_text_entry(entry: &Entry, text: &[u8]) -> bool
    ensures { result ≡ is_text_entry text.now entry.now }
{
    match entry {
        Entry::Utf8(bytes) => bytes.as_slice() == text,
        _ => false,
    }
}

/// The place of the first entry that is a text.
fn first_place(entries: &[Entry], text: &[u8]) -> Option<usize>
    ensures { result ≡ position (is_text_entry text.now) entries.now }
{
    entries.iter().position(|entry| is_text_entry(entry, text))
}

/// The least index at which the pool has a text, or 0 where it has it nowhere.
pub fn least_place(pool: &Pool, text: &[u8]) -> usize
    ensures { result ≡ least_place pool.now text.now }
{
    first_place(pool.entries.as_slice(), text).unwrap_or(0)
}
