//! The lines of a model's text, with the header of a DIMACS text changed.

ghost use Rattle.std.specs.Prelude.{◌≡◌, ◌≢◌, ◌∷◌, ◌++◌, ◌<◌, ◌≤◌, [], drop, length, OnErr, OnOk, codes};
ghost use Rattle.std.specs.List.{position_or_len};
ghost use Rattle.vx_words.specs.Lines.{is_line_feed, parts, without_return};
ghost use Rattle.vx_cut.specs.Texts.{header_with, is_header, line_with, lines_with};

use std::alloc::AllocError;
use vx_list::or_cut_back;
use vx_model::Model;
use vx_words::{next_word, put_number};

/// How many bytes stand before the first line feed.
#[tactic(auto, using(vx_words::proofs::Parts::run_length, vx_words::proofs::Parts::run_within))]
fn line_length(text: &[u8]) -> usize
    ensures value { result ≡ position_or_len is_line_feed text.now }
    ensures within { result ≤ length text.now }
{
    text.iter().take_while(|b| **b != b'\n').count()
}

/// What stands behind the first byte.
fn behind_first(text: &[u8]) -> &[u8]
    ensures { result.now ≡ drop 1 text.now }
{
    match text {
        [_, rest @ ..] => rest,
        [] => text,
    }
}

/// The first line of a text, with a byte 13 at its end, and the text behind it.
fn split_line(text: &[u8]) -> (&[u8], &[u8])
    requires { text.now ≢ [] }
    ensures parts { parts is_line_feed text.now ≡ result.0.now ∷ parts is_line_feed result.1.now }
    ensures shorter { length result.1.now < length text.now }
{
    let (line, rest) = text.split_at(line_length(text));
    (line, behind_first(rest))
}

/// A line without the byte 13 at its end.
fn without_return(line: &[u8]) -> &[u8]
    ensures { result.now ≡ without_return line.now }
{
    match line.last() {
        Some(b'\r') => &line[..line.len() - 1],
        _ => line,
    }
}

const HEADER: &[u8] = b"p";

/// Whether a line's first word is that of a header.
fn is_header(line: &[u8]) -> bool
    ensures { result ≡ is_header line.now }
{
    match next_word(without_return(line)) {
        Some((word, _)) => word == HEADER,
        None => false,
    }
}

/// Puts the header of a model with so many clauses more. Want of memory leaves the text as it was.
#[tactic(auto, unfolding(crate::specs::Texts::header_with), using(std::proofs::lemmas::List::append_assoc, std::proofs::lemmas::List::take_at))]
fn put_header(out: &mut Vec<u8>, model: &Model, more: usize) -> Result<(), AllocError>
    ensures ok { OnOk result (out.new.items ≡ out.old.items ++ header_with model.now more) }
    ensures err { OnErr result (out.new.items ≡ out.old.items) }
{
    let held = out.len();
    out.extend_from_slice(b"p cnf ")?;
    or_cut_back(put_number(out, model.options.len()), out, held)?;
    or_cut_back(out.extend_from_slice(b" "), out, held)?;
    let clauses = model.rules.len() as u128 + more as u128;
    or_cut_back(put_number(out, clauses), out, held)
}

/// Puts a line of the model's text; in DIMACS the header counts so many clauses more. Want of memory leaves the text as it was.
fn put_line(
    out: &mut Vec<u8>,
    dimacs: bool,
    model: &Model,
    more: usize,
    line: &[u8],
) -> Result<(), AllocError>
    ensures ok { OnOk result (out.new.items ≡ out.old.items ++ line_with dimacs model.now more line.now) }
    ensures err { OnErr result (out.new.items ≡ out.old.items) }
{
    if dimacs && is_header(line) {
        put_header(out, model, more)
    } else {
        out.extend_from_slice(line)
    }
}

/// Puts such a line, ended. Want of memory leaves the text as it was.
#[tactic(auto, using(std::proofs::lemmas::List::append_assoc, std::proofs::lemmas::List::take_at))]
fn put_ended_line(
    out: &mut Vec<u8>,
    dimacs: bool,
    model: &Model,
    more: usize,
    line: &[u8],
) -> Result<(), AllocError>
    ensures ok { OnOk result (out.new.items ≡ (out.old.items ++ line_with dimacs model.now more line.now) ++ codes "\n") }
    ensures err { OnErr result (out.new.items ≡ out.old.items) }
{
    let held = out.len();
    put_line(out, dimacs, model, more, line)?;
    or_cut_back(out.extend_from_slice(b"\n"), out, held)
}

/// Puts each line of the model's text, ended. Want of memory leaves the text as it was.
#[tactic(auto, unfolding(crate::specs::Texts::lines_with))]
pub fn put_lines(
    out: &mut Vec<u8>,
    dimacs: bool,
    model: &Model,
    more: usize,
    text: &[u8],
) -> Result<(), AllocError>
    ensures ok { OnOk result (out.new.items ≡ out.old.items ++ lines_with dimacs model.now more text.now) }
    ensures err { OnErr result (out.new.items ≡ out.old.items) }
{
    let held = out.len();
    let mut rest = text;
    while !rest.is_empty() {
        let (line, after) = split_line(rest);
        or_cut_back(put_ended_line(out, dimacs, model, more, line), out, held)?;
        rest = after;
    }
    Ok(())
}
