//! The end of a body: the places of its instructions, its catch rows and its code (JVMS 4.7.3).

ghost use Rattle.std.specs.Prelude.{◌≡◌, ◌<◌, map, OnOk, IfOk};
ghost use Rattle.vx_source_words.specs.Reading.{GivesBy};
ghost use Rattle.vx_asm.specs.Bodies.{places_of, with_caught, with_rows, caught_index, place_in_file, catch_of, code_of, method_of, is_small_code, with_end, end_said};

use crate::class_draft::{Body, ClassDraft, Covered};
use crate::pushing::push;
use std::alloc::{AllocError, Global};
use vx_class::{Catch, Code, Method};
use vx_class_parts::{ConstantTable, class_index, put_class};
use vx_code_parts::{Draft, all_reach, code_bytes, next_place, place_of};
use vx_list::Items;
use vx_source_words::{LineFault, refused};
use vx_value::Name;

/// The places of instructions, and the place behind them.
fn places_of(alloc: Global, drafts: &[Draft]) -> Result<Vec<u32>, AllocError>
    ensures { IfOk result (λ places. places.items ≡ places_of drafts.now) }
{
    let mut places = Vec::new(alloc);
    let mut at = 0;
    for draft in drafts {
        places.push(at as u32)?;
        let next = next_place(at, draft);
        at = next;
    }
    places.push(at as u32)?;
    Ok(places)
}

/// A place as it stands in the file.
fn place_in_file(places: &[u32], number: usize) -> u16
    ensures { result ≡ place_in_file places.now number }
{
    (place_of(places, number) % 65_536) as u16
}

fn put_caught(
    alloc: Global,
    pool: &mut ConstantTable,
    class: &Option<Name>,
) -> Result<(), AllocError>
    ensures { OnOk result (pool.new ≡ with_caught pool.old class.now) }
{
    match class {
        None => Ok(()),
        Some(name) => Ok(put_class(alloc, pool, name.bytes())?),
    }
}

/// The classes that the rows catch.
fn put_rows(alloc: Global, pool: &mut ConstantTable, rows: &[Covered]) -> Result<(), AllocError>
    ensures { OnOk result (pool.new ≡ with_rows pool.old rows.now) }
{
    for row in rows {
        put_caught(alloc, pool, &row.class)?;
    }
    Ok(())
}

fn caught_index(
    alloc: Global,
    pool: &ConstantTable,
    class: &Option<Name>,
) -> Result<u16, AllocError>
    ensures { IfOk result (λ i. i ≡ caught_index pool.now class.now) }
{
    match class {
        None => Ok(0),
        Some(name) => class_index(alloc, pool, name.bytes()),
    }
}

fn catch_of(
    alloc: Global,
    pool: &ConstantTable,
    places: &[u32],
    row: &Covered,
) -> Result<Catch, AllocError>
    ensures { IfOk result (λ c. c ≡ catch_of pool.now places.now row.now) }
{
    Ok(Catch {
        start: place_in_file(places, row.start),
        end: place_in_file(places, row.end),
        handler: place_in_file(places, row.handler),
        class: caught_index(alloc, pool, &row.class)?,
    })
}

fn catches_of(
    alloc: Global,
    pool: &ConstantTable,
    places: &[u32],
    rows: &[Covered],
) -> Result<Vec<Catch>, AllocError>
    ensures { IfOk result (λ v. v.items ≡ map (catch_of pool.now places.now) rows.now) }
{
    let mut catches = Vec::new(alloc);
    for row in rows {
        catches.push(catch_of(alloc, pool, places, row)?)?;
    }
    Ok(catches)
}

fn code_of(
    alloc: Global,
    pool: &ConstantTable,
    places: &[u32],
    body: &Body,
) -> Result<Code, AllocError>
    ensures { IfOk result (λ c. c ≡ code_of pool.now places.now body.now) }
{
    let bytes = code_bytes(alloc, places, body.drafts.as_slice())?;
    let catches = catches_of(alloc, pool, places, body.rows.as_slice())?;
    Ok(Code {
        max_stack: body.max_stack,
        max_locals: body.max_locals,
        bytes: Items::of(bytes),
        catches: Items::of(catches),
    })
}

fn method_of(
    alloc: Global,
    pool: &ConstantTable,
    places: &[u32],
    body: &Body,
) -> Result<Method, AllocError>
    ensures { IfOk result (λ m. m ≡ method_of pool.now places.now body.now) }
{
    let code = code_of(alloc, pool, places, body)?;
    Ok(Method {
        flags: body.flags,
        name: body.name,
        descriptor: body.descriptor,
        code: Some(code),
    })
}

/// Whether the code has at most 65,535 bytes, each jump and each `ldc` reaches what it names, and the rows can be counted.
fn is_small_code(places: &[u32], body: &Body) -> bool
    ensures { result ≡ is_small_code places.now body.now }
{
    place_of(places, body.drafts.len()) < 65_536
        && all_reach(places, body.drafts.as_slice())
        && body.is_near
        && body.rows.len() < 65_536
}

/// The method of a body, of which the pool gets the classes that its rows catch.
fn put_method(
    alloc: Global,
    pool: &mut ConstantTable,
    body: &Body,
    places: &[u32],
) -> Result<Method, AllocError>
    ensures pool { OnOk result (pool.new ≡ with_rows pool.old body.now.rows) }
    ensures method { IfOk result (λ m. m ≡ method_of pool.new places.now body.now) }
{
    put_rows(alloc, pool, body.rows.as_slice())?;
    method_of(alloc, pool, places, body)
}

#[tactic(auto, unfolding(crate::specs::Bodies::with_end))]
fn end_body(
    alloc: Global,
    draft: &mut ClassDraft,
    body: &Body,
    places: &[u32],
) -> Result<(), AllocError>
    ensures { OnOk result (draft.new ≡ with_end draft.old body.now places.now) }
{
    let method = put_method(alloc, &mut draft.pool, body, places)?;
    push(alloc, &mut draft.methods, method)?;
    draft.body = None;
    Ok(())
}

/// The end of a body: its code and its rows are few enough, what jumps and `ldc` name is near enough (7), and there is an
/// instruction (8).
#[tactic(auto, unfolding(crate::specs::Bodies::end_said))]
pub fn end_line(alloc: Global, draft: &mut ClassDraft, body: &Body) -> Result<(), LineFault>
    ensures { GivesBy (λ _. draft.new) result (end_said draft.old body.now) }
{
    let places = places_of(alloc, body.drafts.as_slice())?;
    if !is_small_code(&places, body) {
        return refused(7);
    }
    if body.drafts.len() == 0 {
        return refused(8);
    }
    Ok(end_body(alloc, draft, body, &places)?)
}
