//! The text of a replay.

ghost use Rattle.std.specs.Prelude.{◌≡◌, ◌++◌, ◌==◌, IfOk, OnOk, Some, codes, flat_map};
ghost use Rattle.vx_replay.specs.ReplayText.{frame_line, line_by, line_of, line_within, line_word, place_in_file, run_lines, text_by};
ghost use Rattle.vx_replay.specs.Replays.{places_in, runs_in};
ghost use Rattle.vx_report.specs.Lines.{end_words};
ghost use Rattle.vx_report.specs.Projection.{attempts_line, run_line};

use crate::pieces::PlainPiece;
use crate::running::{Place, Replay};
use std::alloc::{AllocError, Global};
use vx_java::parts::{class_of_method, methods_of};
use vx_java::place;
use vx_lines::LineTable;
use vx_link::Program;
use vx_report::{put_end, put_spelled, word_of_stream};
use vx_value::{End, MethodId};
use vx_words::{TEXT, WORD, put_number};

fn put_piece(out: &mut Vec<u8>, piece: &PlainPiece) -> Result<(), AllocError>
    ensures { OnOk result (out.new.items ≡ out.old.items ++ run_line (piece.now.stream, piece.now.text)) }
{
    out.extend_from_slice(word_of_stream(piece.stream))?;
    out.extend_from_slice(b" ")?;
    put_spelled(out, TEXT, piece.text.bytes())?;
    out.extend_from_slice(b"\n")
}

fn put_pieces(out: &mut Vec<u8>, pieces: &[PlainPiece]) -> Result<(), AllocError>
    ensures { OnOk result (out.new.items ≡ out.old.items ++ flat_map run_line (runs_in pieces.now)) }
{
    for piece in pieces {
        put_piece(out, piece)?;
    }
    Ok(())
}

fn put_end_line(out: &mut Vec<u8>, end: &End) -> Result<(), AllocError>
    ensures { OnOk result (out.new.items ≡ out.old.items ++ (codes "end " ++ end_words end.now ++ codes "\n")) }
{
    out.extend_from_slice(b"end ")?;
    put_end(out, end)?;
    out.extend_from_slice(b"\n")
}

fn put_attempts(out: &mut Vec<u8>, attempts: u64) -> Result<(), AllocError>
    ensures { OnOk result (out.new.items ≡ out.old.items ++ attempts_line (Some attempts)) }
{
    out.extend_from_slice(b"attempts ")?;
    put_number(out, attempts)?;
    out.extend_from_slice(b"\n")
}

/// Puts the output, the end and the number of attempts.
#[tactic(auto, unfolding(crate::specs::ReplayText::run_lines))]
fn put_run(out: &mut Vec<u8>, replay: &Replay) -> Result<(), AllocError>
    ensures { OnOk result (out.new.items ≡ out.old.items ++ run_lines replay.now) }
{
    put_pieces(out, replay.pieces.as_slice())?;
    put_end_line(out, &replay.end)?;
    put_attempts(out, replay.attempts)
}

/// Whether a number is that of a method.
fn is_of(other: &MethodId, method: MethodId) -> bool
    ensures { result ≡ (other.now.0 == method.0) }
{
    other.0 == method.0
}

/// The place of a method among those of the class file of its class.
fn place_in_file(program: &Program, method: MethodId) -> Option<usize>
    ensures { result ≡ place_in_file program.now method.0 }
{
    let methods = methods_of(program, class_of_method(program, method));
    methods.iter().position(|other| is_of(other, method))
}

/// The line of a position of the method at a place of a class file.
fn line_by(table: &LineTable, place: usize, at: u32) -> Option<u16>
    ensures { result ≡ line_by table.now place at }
{
    match u16::try_from(place) {
        Ok(place) => table.line_of(place, at),
        Err(_) => None,
    }
}

/// The line of a position of a method, by the line table of its class.
fn line_within(program: &Program, table: &LineTable, at: Place) -> Option<u16>
    ensures { result ≡ line_within program.now table.now at.method.0 at.position }
{
    match place_in_file(program, at.method) {
        Some(place) => line_by(table, place, at.position),
        None => None,
    }
}

/// The line of a position of a method, by the line tables of the first classes of the program, which are those of the folder; `None`
/// where they have no line of it.
pub fn line_of(program: &Program, tables: &[LineTable], at: Place) -> Option<u16>
    ensures { result ≡ line_of program.now tables.now at.method.0 at.position }
{
    let class = class_of_method(program, at.method);
    match tables.get(class.0 as usize) {
        Some(table) => line_within(program, table, at),
        None => None,
    }
}

fn put_line(out: &mut Vec<u8>, line: Option<u16>) -> Result<(), AllocError>
    ensures { OnOk result (out.new.items ≡ out.old.items ++ line_word line) }
{
    match line {
        Some(line) => put_number(out, line),
        None => out.extend_from_slice(b"-"),
    }
}

fn put_place(
    alloc: Global,
    out: &mut Vec<u8>,
    program: &Program,
    tables: &[LineTable],
    at: Place,
) -> Result<(), AllocError>
    ensures { OnOk result (out.new.items ≡ out.old.items ++ frame_line program.now tables.now (at.method.0, at.position)) }
{
    let name = place(alloc, program, at.method, at.position)?;
    out.extend_from_slice(b"at ")?;
    put_spelled(out, WORD, name.bytes())?;
    out.extend_from_slice(b" ")?;
    put_line(out, line_of(program, tables, at))?;
    out.extend_from_slice(b"\n")
}

fn put_places(
    alloc: Global,
    out: &mut Vec<u8>,
    program: &Program,
    tables: &[LineTable],
    frames: &[Place],
) -> Result<(), AllocError>
    ensures { OnOk result (out.new.items ≡ out.old.items ++ flat_map (frame_line program.now tables.now) (places_in frames.now)) }
{
    for at in frames {
        put_place(alloc, out, program, tables, *at)?;
    }
    Ok(())
}

/// The text of what a run came to: `varexj replay 1`, its output, its end and its attempts as a projection shows them, `at` with the
/// place and the line of each frame, the one on top first, and `done`. The line tables are those of the folder's classes, in the order of
/// the program; a place without a line has `-`.
pub fn replay_text(
    alloc: Global,
    program: &Program,
    tables: &[LineTable],
    replay: &Replay,
) -> Result<Vec<u8>, AllocError>
    ensures { IfOk result (λ text. text.items ≡ text_by program.now tables.now replay.now) }
{
    let mut out = Vec::from_slice(alloc, b"varexj replay 1\n")?;
    put_run(&mut out, replay)?;
    put_places(alloc, &mut out, program, tables, replay.frames.as_slice())?;
    out.extend_from_slice(b"done\n")?;
    Ok(out)
}
