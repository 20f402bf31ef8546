//! What is lacking, with the places that lack it.

ghost use Rattle.std.specs.Option.{option_copied};
ghost use Rattle.std.specs.Prelude.{◌≡◌, ◌++◌, ◌≤◌, None, OnOk, drop, flat_map, slice_get};
ghost use Rattle.vx_spots.specs.Texts.{count_there, head_text, kind_text, lack_at, line_words, note_text, notes_text, place_at_spot, place_text, rank_text, receiver_text, sureness};

use crate::entries::Entry;
use crate::ranks::{Rank, is_at};
use std::alloc::{AllocError, Global};
use vx_java::parts::name_of_class;
use vx_java::place;
use vx_lines::LineTable;
use vx_link::Program;
use vx_may_end::{Lack, Spot, When};
use vx_reasons::{Form, sentence};
use vx_replay::{Place, line_of};
use vx_report::put_spelled;
use vx_words::{WORD, put_number};

/// How many classes of receivers are told of one place.
const MOST_CLASSES: usize = 8;

/// What is told of: a program with the line tables of its first classes, and its spots.
#[derive(Clone, Copy)]
pub(crate) struct Told<'a> {
    pub program: &'a Program,
    pub tables: &'a [LineTable],
    pub spots: &'a [Spot],
}

/// What an entry stands for.
fn lack_at<'a>(spots: &'a [Spot], entry: Entry) -> Option<&'a Lack>
    ensures { option_copied result ≡ lack_at spots.now entry }
{
    match spots.get(entry.spot) {
        Some(spot) => spot.lacks.get(entry.lack),
        None => None,
    }
}

/// Puts the number of a line, if there is one.
fn put_line(out: &mut Vec<u8>, line: Option<u16>) -> Result<(), AllocError>
    ensures { OnOk result (out.new.items ≡ out.old.items ++ line_words line) }
{
    match line {
        None => Ok(()),
        Some(line) => {
            out.extend_from_slice(b" line ")?;
            put_number(out, line)
        }
    }
}

fn sureness(when: When) -> &'static [u8]
    ensures { result.now ≡ sureness when }
{
    match when {
        When::Always => b"\nat ",
        _ => b"\nmay ",
    }
}

/// Puts the place of a spot, behind whether each run that comes there ends there.
#[tactic(auto, unfolding(crate::specs::Texts::place_text))]
fn put_place(
    alloc: Global,
    out: &mut Vec<u8>,
    told: &Told<'_>,
    when: When,
    spot: &Spot,
) -> Result<(), AllocError>
    ensures { OnOk result (out.new.items ≡ out.old.items ++ place_text told.now.program.now told.now.tables.now when spot.now) }
{
    let at = Place {
        method: spot.method,
        position: spot.position,
    };
    let name = place(alloc, told.program, at.method, at.position)?;
    out.extend_from_slice(sureness(when))?;
    put_spelled(out, WORD, name.bytes())?;
    put_line(out, line_of(told.program, told.tables, at))
}

/// Puts the place of the spot of a number.
fn put_place_at(
    alloc: Global,
    out: &mut Vec<u8>,
    told: &Told<'_>,
    when: When,
    spot: usize,
) -> Result<(), AllocError>
    ensures { OnOk result (out.new.items ≡ out.old.items ++ place_at_spot told.now.program.now told.now.tables.now when (slice_get told.now.spots.now spot)) }
{
    match told.spots.get(spot) {
        Some(spot) => put_place(alloc, out, told, when, spot),
        None => Ok(()),
    }
}

/// Puts the class of a receiver behind so many that were put of the place: the first eight are told.
fn put_receiver(
    out: &mut Vec<u8>,
    program: &Program,
    count: usize,
    when: When,
) -> Result<(), AllocError>
    ensures { OnOk result (out.new.items ≡ out.old.items ++ receiver_text program.now count when) }
{
    let When::On(class) = when else {
        return Ok(());
    };
    if count > MOST_CLASSES {
        return Ok(());
    }
    if count == MOST_CLASSES {
        return out.extend_from_slice(b",..");
    }
    out.extend_from_slice(if count == 0 { b" by " } else { b"," })?;
    put_spelled(out, WORD, name_of_class(program, class))
}

/// Puts an entry of a kind: its place, if the entry before is of another one, and the class of its receiver behind so many of the place.
fn put_note(
    alloc: Global,
    out: &mut Vec<u8>,
    told: &Told<'_>,
    entry: Entry,
    is_new: bool,
    count: usize,
) -> Result<(), AllocError>
    ensures { OnOk result (out.new.items ≡ out.old.items ++ note_text told.now.program.now told.now.tables.now told.now.spots.now entry is_new count) }
{
    let Some(lack) = lack_at(told.spots, entry) else {
        return Ok(());
    };
    if is_new {
        put_place_at(alloc, out, told, lack.when, entry.spot)?;
    }
    put_receiver(out, told.program, count, lack.when)
}

/// How many receivers were put of the place of an entry before it.
fn count_there(is_new: bool, count: usize) -> usize
    ensures value { result ≡ count_there is_new count }
    ensures within { result ≤ count }
{
    if is_new { 0 } else { count }
}

/// Puts the entries of a kind that stand in front.
#[tactic(auto, unfolding(crate::specs::Texts::notes_text))]
fn put_notes(
    alloc: Global,
    out: &mut Vec<u8>,
    told: &Told<'_>,
    kind: usize,
    entries: &[Entry],
) -> Result<(), AllocError>
    ensures { OnOk result (out.new.items ≡ out.old.items ++ notes_text told.now.program.now told.now.tables.now told.now.spots.now kind None 0 entries.now) }
{
    let mut last = None;
    let mut count = 0;
    let mut rest = entries;
    while let [entry, behind @ ..] = rest {
        if entry.kind != kind {
            return Ok(());
        }
        let is_new = !is_at(last, entry.spot);
        let there = count_there(is_new, count);
        put_note(alloc, out, told, *entry, is_new, there)?;
        last = Some(entry.spot);
        count = there + 1;
        rest = behind;
    }
    Ok(())
}

/// Puts what is lacking, in how many places, and what that means.
#[tactic(auto, unfolding(crate::specs::Texts::head_text))]
fn put_head(out: &mut Vec<u8>, places: usize, lack: &Lack) -> Result<(), AllocError>
    ensures { OnOk result (out.new.items ≡ out.old.items ++ head_text places lack.now.word lack.now.what) }
{
    put_number(out, places)?;
    out.extend_from_slice(b" ")?;
    put_spelled(out, WORD, lack.what.bytes())?;
    out.extend_from_slice(b": ")?;
    out.extend_from_slice(sentence(Form::Unsupported, lack.word))
}

/// Puts a kind of which so many places are, by the entries that begin with it.
fn put_kind(
    alloc: Global,
    out: &mut Vec<u8>,
    told: &Told<'_>,
    places: usize,
    entries: &[Entry],
) -> Result<(), AllocError>
    ensures { OnOk result (out.new.items ≡ out.old.items ++ kind_text told.now.program.now told.now.tables.now told.now.spots.now places entries.now) }
{
    let [first, ..] = entries else {
        return Ok(());
    };
    let Some(lack) = lack_at(told.spots, *first) else {
        return Ok(());
    };
    put_head(out, places, lack)?;
    put_notes(alloc, out, told, first.kind, entries)?;
    out.extend_from_slice(b"\n")
}

/// The entries from a place on.
fn entries_behind(order: &[Entry], start: usize) -> &[Entry]
    ensures { result.now ≡ drop start order.now }
{
    if start > order.len() {
        return &[];
    }
    let (_, behind) = order.split_at(start);
    behind
}

/// Puts the kinds, each with its places.
pub(crate) fn put_kinds(
    alloc: Global,
    out: &mut Vec<u8>,
    told: &Told<'_>,
    order: &[Entry],
    ranks: &[Rank],
) -> Result<(), AllocError>
    ensures { OnOk result (out.new.items ≡ out.old.items ++ flat_map (rank_text told.now.program.now told.now.tables.now told.now.spots.now order.now) ranks.now) }
{
    for rank in ranks {
        let behind = entries_behind(order, rank.start);
        put_kind(alloc, out, told, rank.places.0, behind)?;
    }
    Ok(())
}
