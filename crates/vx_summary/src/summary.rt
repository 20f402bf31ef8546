//! The text of a summary.

ghost use Rattle.std.specs.Prelude.{◌≡◌, ◌++◌, IfOk, OnOk, length, replicate};
ghost use Rattle.vx_report.specs.Projection.{output_at};
ghost use Rattle.vx_value.specs.Words.{text_of};
ghost use Rattle.vx_summary.specs.Pieces.{written};
ghost use Rattle.vx_summary.specs.Summary.{asked_lines, count_lines, number_line, out_bytes, summary_text, text_line, text_lines, written_with};

use std::alloc::{AllocError, Global};
use vx_report::{Piece, Report, put_spelled};
use vx_space::Config;
use vx_value::Stream;
use vx_words::{TEXT, put_number};

/// Puts a word and a number.
fn put_number_line(out: &mut Vec<u8>, word: &[u8], number: u128) -> Result<(), AllocError>
    ensures { OnOk result (out.new.items ≡ out.old.items ++ number_line word.now number) }
{
    out.extend_from_slice(word)?;
    put_number(out, number)?;
    out.extend_from_slice(b"\n")
}

/// Puts what is asked for.
#[tactic(auto, unfolding(crate::specs::Summary::asked_lines))]
fn put_asked(out: &mut Vec<u8>, seed: u64, report: &Report) -> Result<(), AllocError>
    ensures { OnOk result (out.new.items ≡ out.old.items ++ asked_lines seed report.now) }
{
    put_number_line(out, b"seed ", u128::from(seed))?;
    put_number_line(out, b"options ", report.options.len() as u128)
}

/// Puts how large a report is.
#[tactic(auto, unfolding(crate::specs::Summary::count_lines))]
fn put_counts(out: &mut Vec<u8>, report: &Report) -> Result<(), AllocError>
    ensures { OnOk result (out.new.items ≡ out.old.items ++ count_lines report.now) }
{
    put_number_line(out, b"rounds ", report.rounds)?;
    put_number_line(out, b"nodes ", report.nodes.len() as u128)?;
    put_number_line(out, b"pieces ", report.pieces.len() as u128)?;
    put_number_line(out, b"ends ", report.ends.len() as u128)
}

/// Puts what a piece writes to `out` at a configuration.
fn put_piece(
    out: &mut Vec<u8>,
    report: &Report,
    c: &Config,
    piece: &Piece,
) -> Result<(), AllocError>
    ensures { OnOk result (out.new.items ≡ out.old.items ++ text_of (written report.now.nodes c.now piece.now)) }
{
    if !report.holds(piece.node, c) {
        return Ok(());
    }
    match piece.stream {
        Stream::Out => put_spelled(out, TEXT, piece.text.bytes()),
        Stream::Err => Ok(()),
    }
}

/// Puts what a configuration writes to `out`.
fn put_pieces(out: &mut Vec<u8>, report: &Report, c: &Config) -> Result<(), AllocError>
    ensures { OnOk result (out.new.items ≡ out.old.items ++ text_of (out_bytes (output_at report.now c.now))) }
{
    for piece in report.pieces.as_slice() {
        put_piece(out, report, c, piece)?;
    }
    Ok(())
}

/// The configuration in which all options have one value.
fn config_with(alloc: Global, report: &Report, value: bool) -> Result<Config, AllocError>
    ensures { IfOk result (λ c. c ≡ replicate (length report.now.options) value) }
{
    let values = vec![in alloc; value; report.options.len()]?;
    let c = Config::new(alloc, values.as_slice())?;
    Ok(c)
}

/// Puts a word and what is written to `out` where all options have one value.
fn put_text_line(
    alloc: Global,
    out: &mut Vec<u8>,
    word: &[u8],
    report: &Report,
    value: bool,
) -> Result<(), AllocError>
    ensures { OnOk result (out.new.items ≡ out.old.items ++ text_line word.now (written_with report.now value)) }
{
    let c = config_with(alloc, report, value)?;
    out.extend_from_slice(word)?;
    put_pieces(out, report, &c)?;
    out.extend_from_slice(b"\n")
}

/// Puts what is written with all options on and with none.
#[tactic(auto, unfolding(crate::specs::Summary::text_lines))]
fn put_texts(alloc: Global, out: &mut Vec<u8>, report: &Report) -> Result<(), AllocError>
    ensures { OnOk result (out.new.items ≡ out.old.items ++ text_lines report.now) }
{
    put_text_line(alloc, out, b"all ", report, true)?;
    put_text_line(alloc, out, b"none ", report, false)
}

/// The summary of the report of a seed: `varexj load 1`, the seed, the numbers of options, rounds, nodes, pieces and ends, what is
/// written to `out` with all options on and with none, and `done`.
#[tactic(auto, unfolding(crate::specs::Summary::summary_text))]
pub fn summary_text(alloc: Global, seed: u64, report: &Report) -> Result<Vec<u8>, AllocError>
    ensures { IfOk result (λ text. text.items ≡ summary_text seed report.now) }
{
    let mut out = Vec::new(alloc);
    out.extend_from_slice(b"varexj load 1\n")?;
    put_asked(&mut out, seed, report)?;
    put_counts(&mut out, report)?;
    put_texts(alloc, &mut out, report)?;
    out.extend_from_slice(b"done\n")?;
    Ok(out)
}
