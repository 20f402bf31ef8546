//! The code of a method that is assembled: instructions whose jumps name others by their numbers, and the bytes of all.

ghost use Rattle.std.specs.Prelude.{◌≡◌, ◌+◌, ◌-◌, ◌*◌, ◌%◌, ◌≤◌, ◌<◌, ◌^◌, ◌++◌, slice_index, replicate, min, OnOk, IfOk};
ghost use Rattle.std.specs.Int.{w32, cast_unsigned};
ghost use Rattle.std.specs.List.{flat_map};
ghost use Rattle.byteorder.specs.Endian.{big_bytes};
ghost use Rattle.vx_class.specs.Spelling.{u2, u4};
ghost use Rattle.vx_code_parts.specs.Drafts.{padding, size, next_place, way, row_bytes, switch_bytes, table_bytes, lookup_bytes, draft_bytes, code_bytes, reaches, all_reach};

use std::alloc::{AllocError, Global};
use vx_list::Items;
use vx_source_words::{LOOKUPSWITCH, TABLESWITCH};
use vx_writer::{put, put_count, put_length, put_u1, put_u4};

/// A key and the number of an instruction.
#[derive(Clone, Copy, Debug, PartialEq, Eq)]
pub struct Row {
    pub key: i32,
    pub target: usize,
}

/// An instruction. Jumps have the number of the instruction to which they lead.
#[derive(Debug, Drop)]
pub enum Draft {
    /// The bytes of an instruction without jumps.
    Bytes(Items<u8>),
    Jump(u8, usize),
    JumpWide(u8, usize),
    /// The least key, the fallback, and an instruction for each key.
    Table(i32, usize, Items<usize>),
    /// The fallback, and an instruction for each key.
    Lookup(usize, Items<Row>),
}

fn padding(at: usize) -> usize
    ensures value { result ≡ padding at }
    ensures few { result ≤ 3 }
{
    3 - at % 4
}

/// How many bytes a table takes behind its padding, up to 65,536.
fn capped(start: usize, width: usize, count: usize) -> usize
    requires first { start < 65536 }
    requires second { width ≤ 8 }
    ensures { result ≡ min 65536 (start + width * count) }
{
    let count = count.min(65_536);
    (start + width * count).min(65_536)
}

/// The place behind an instruction.
pub fn next_place(at: usize, draft: &Draft) -> usize
    ensures value { result ≡ next_place at draft.now }
    ensures within { result ≤ 65536 }
{
    if at >= 65_536 {
        return 65_536;
    }
    let size = match draft {
        Draft::Bytes(bytes) => bytes.len().min(65_536),
        Draft::Jump(_, _) => 3,
        Draft::JumpWide(_, _) => 5,
        Draft::Table(_, _, targets) => capped(13 + padding(at), 4, targets.len()),
        Draft::Lookup(_, rows) => capped(9 + padding(at), 8, rows.len()),
    };
    (at + size).min(65_536)
}

/// The place of an instruction, or 0 behind the last one.
pub fn place_of(places: &[u32], number: usize) -> usize
    ensures value { result ≡ slice_index places.now number }
    ensures within { result < 2 ^ 32 }
{
    match places.get(number) {
        Some(place) => *place as usize,
        None => 0,
    }
}

/// The way from a place to that of an instruction.
fn way(places: &[u32], at: usize, target: usize) -> usize
    requires { at ≤ 65536 }
    ensures { result ≡ way places.now at target }
{
    place_of(places, target) + 0x1_0000_0000 - at
}

fn put_way(out: &mut Vec<u8>, places: &[u32], at: usize, target: usize) -> Result<(), AllocError>
    requires { at ≤ 65536 }
    ensures { OnOk result (out.new.items ≡ out.old.items ++ u4 (way places.now at target)) }
{
    put_length(out, way(places, at, target))
}

fn put_padding(out: &mut Vec<u8>, at: usize) -> Result<(), AllocError>
    ensures { OnOk result (out.new.items ≡ out.old.items ++ replicate (padding at) 0) }
{
    for _ in 0..padding(at) {
        out.push(0)?;
    }
    Ok(())
}

fn put_ways(
    out: &mut Vec<u8>,
    places: &[u32],
    at: usize,
    targets: &[usize],
) -> Result<(), AllocError>
    requires { at ≤ 65536 }
    ensures { OnOk result (out.new.items ≡ out.old.items ++ flat_map (λ t. u4 (way places.now at t)) targets.now) }
{
    for target in targets {
        put_way(out, places, at, *target)?;
    }
    Ok(())
}

fn put_int(out: &mut Vec<u8>, number: i32) -> Result<(), AllocError>
    ensures { OnOk result (out.new.items ≡ out.old.items ++ u4 (cast_unsigned w32 number)) }
{
    put_u4(out, number.cast_unsigned())
}

fn put_row(out: &mut Vec<u8>, places: &[u32], at: usize, row: Row) -> Result<(), AllocError>
    requires { at ≤ 65536 }
    ensures { OnOk result (out.new.items ≡ out.old.items ++ row_bytes places.now at row) }
{
    put_int(out, row.key)?;
    put_way(out, places, at, row.target)
}

fn put_rows(out: &mut Vec<u8>, places: &[u32], at: usize, rows: &[Row]) -> Result<(), AllocError>
    requires { at ≤ 65536 }
    ensures { OnOk result (out.new.items ≡ out.old.items ++ flat_map (row_bytes places.now at) rows.now) }
{
    for row in rows {
        put_row(out, places, at, *row)?;
    }
    Ok(())
}

/// An opcode, the padding, and the way to the fallback.
#[tactic(auto, unfolding(crate::specs::Drafts::switch_bytes))]
fn put_switch(
    out: &mut Vec<u8>,
    places: &[u32],
    at: usize,
    opcode: u8,
    fallback: usize,
) -> Result<(), AllocError>
    requires { at ≤ 65536 }
    ensures { OnOk result (out.new.items ≡ out.old.items ++ switch_bytes places.now at opcode fallback) }
{
    put_u1(out, opcode)?;
    put_padding(out, at)?;
    put_way(out, places, at, fallback)
}

/// The greatest key of a table, as its lowest four bytes.
fn greatest(low: i32, count: usize) -> usize
    requires { count < 2 ^ 60 }
    ensures { result ≡ cast_unsigned w32 low + count + 0xffff_ffff }
{
    low.cast_unsigned() as usize + count + 0xffff_ffff
}

#[tactic(auto, unfolding(crate::specs::Drafts::table_bytes))]
fn put_table(
    out: &mut Vec<u8>,
    places: &[u32],
    at: usize,
    low: i32,
    fallback: usize,
    targets: &[usize],
) -> Result<(), AllocError>
    requires place { at ≤ 65536 }
    ensures { OnOk result (out.new.items ≡ out.old.items ++ table_bytes places.now at low fallback targets.now) }
{
    put_switch(out, places, at, TABLESWITCH, fallback)?;
    put_int(out, low)?;
    put_length(out, greatest(low, targets.len()))?;
    put_ways(out, places, at, targets)
}

#[tactic(auto, unfolding(crate::specs::Drafts::lookup_bytes))]
fn put_lookup(
    out: &mut Vec<u8>,
    places: &[u32],
    at: usize,
    fallback: usize,
    rows: &[Row],
) -> Result<(), AllocError>
    requires { at ≤ 65536 }
    ensures { OnOk result (out.new.items ≡ out.old.items ++ lookup_bytes places.now at fallback rows.now) }
{
    put_switch(out, places, at, LOOKUPSWITCH, fallback)?;
    put_length(out, rows.len())?;
    put_rows(out, places, at, rows)
}

fn put_jump(
    out: &mut Vec<u8>,
    places: &[u32],
    at: usize,
    opcode: u8,
    target: usize,
) -> Result<(), AllocError>
    requires { at ≤ 65536 }
    ensures { OnOk result (out.new.items ≡ out.old.items ++ (big_bytes 1 opcode ++ u2 (way places.now at target))) }
{
    put_u1(out, opcode)?;
    put_count(out, way(places, at, target))
}

fn put_wide_jump(
    out: &mut Vec<u8>,
    places: &[u32],
    at: usize,
    opcode: u8,
    target: usize,
) -> Result<(), AllocError>
    requires { at ≤ 65536 }
    ensures { OnOk result (out.new.items ≡ out.old.items ++ (big_bytes 1 opcode ++ u4 (way places.now at target))) }
{
    put_u1(out, opcode)?;
    put_way(out, places, at, target)
}

/// The bytes of an instruction at a place.
#[tactic(auto, unfolding(crate::specs::Drafts::draft_bytes))]
fn put_draft(out: &mut Vec<u8>, places: &[u32], at: usize, draft: &Draft) -> Result<(), AllocError>
    requires { at ≤ 65536 }
    ensures { OnOk result (out.new.items ≡ out.old.items ++ draft_bytes places.now at draft.now) }
{
    match draft {
        Draft::Bytes(bytes) => put(out, bytes.as_slice()),
        Draft::Jump(opcode, target) => put_jump(out, places, at, *opcode, *target),
        Draft::JumpWide(opcode, target) => put_wide_jump(out, places, at, *opcode, *target),
        Draft::Table(low, fallback, targets) => {
            put_table(out, places, at, *low, *fallback, targets.as_slice())
        }
        Draft::Lookup(fallback, rows) => put_lookup(out, places, at, *fallback, rows.as_slice()),
    }
}

/// The bytes of a method's instructions.
pub fn code_bytes(alloc: Global, places: &[u32], drafts: &[Draft]) -> Result<Vec<u8>, AllocError>
    ensures { IfOk result (λ bytes. bytes.items ≡ code_bytes places.now 0 drafts.now) }
{
    let mut out = Vec::new(alloc);
    let mut at = 0;
    for draft in drafts {
        put_draft(&mut out, places, at, draft)?;
        let next = next_place(at, draft);
        at = next;
    }
    Ok(out)
}

fn reaches(places: &[u32], at: usize, draft: &Draft) -> bool
    requires { at ≤ 65536 }
    ensures { result ≡ reaches places.now at draft.now }
{
    match draft {
        Draft::Jump(_, target) => {
            let place = place_of(places, *target);
            place <= at + 32_767 && at <= place + 32_768
        }
        _ => true,
    }
}

/// Whether each jump of two bytes reaches its instruction.
pub fn all_reach(places: &[u32], drafts: &[Draft]) -> bool
    ensures { result ≡ all_reach places.now 0 drafts.now }
{
    let mut at = 0;
    for draft in drafts {
        let near = reaches(places, at, draft);
        if !near {
            return false;
        }
        let next = next_place(at, draft);
        at = next;
    }
    true
}
