//! The titles of pieces and ends: what a person is shown of them.

ghost use Rattle.std.specs.Prelude.{◌≡◌, ◌++◌, ◌==◌, OnErr, OnOk};
ghost use Rattle.std.specs.List.{position};
ghost use Rattle.vx_picture.specs.Subjects.{end_title, piece_title, shown, shown_length};

use std::alloc::AllocError;
use vx_list::or_cut_back;
use vx_report::{Piece, put_end, put_spelled, word_of_stream};
use vx_value::End;
use vx_words::{TEXT, put_number};

/// Where the first line of a text ends.
fn line_end(text: &[u8]) -> Option<usize>
    ensures { result ≡ position (λ b. b == 10) text.now }
{
    text.iter().position(|b| *b == b'\n')
}

fn shown_length(end: Option<usize>) -> usize
    ensures { result ≡ shown_length end }
{
    match end {
        Some(place) => place.min(59) + 1,
        None => 60,
    }
}

/// The bytes of a text that are shown: up to its first byte 10, with it, and at most 60.
#[tactic(auto, using(std::proofs::lemmas::List::take_all))]
fn shown(text: &[u8]) -> &[u8]
    ensures { result.now ≡ shown text.now }
{
    let length = shown_length(line_end(text));
    if length < text.len() {
        &text[..length]
    } else {
        text
    }
}

/// Puts the title of a piece: `out` or `err`, its number, how many bytes its text has, and of the text the bytes up to the first
/// byte 10, with it, and at most 60, cut before they are escaped. Want of memory leaves the text as it was.
#[tactic(auto, unfolding(crate::specs::Subjects::piece_title), using(std::proofs::lemmas::List::append_assoc, std::proofs::lemmas::List::take_at))]
pub fn put_piece_title(out: &mut Vec<u8>, index: u64, piece: &Piece) -> Result<(), AllocError>
    ensures ok { OnOk result (out.new.items ≡ out.old.items ++ piece_title index piece.now) }
    ensures err { OnErr result (out.new.items ≡ out.old.items) }
{
    let held = out.len();
    let text = piece.text.bytes();
    out.extend_from_slice(word_of_stream(piece.stream))?;
    or_cut_back(out.extend_from_slice(b" "), out, held)?;
    or_cut_back(put_number(out, index), out, held)?;
    or_cut_back(out.extend_from_slice(b" "), out, held)?;
    or_cut_back(put_number(out, text.len() as u64), out, held)?;
    or_cut_back(out.extend_from_slice(b" "), out, held)?;
    or_cut_back(put_spelled(out, TEXT, shown(text)), out, held)
}

/// Puts the title of an end: `end` and its words. Want of memory leaves the text as it was.
#[tactic(auto, unfolding(crate::specs::Subjects::end_title), using(std::proofs::lemmas::List::append_assoc, std::proofs::lemmas::List::take_at))]
pub fn put_end_title(out: &mut Vec<u8>, end: &End) -> Result<(), AllocError>
    ensures ok { OnOk result (out.new.items ≡ out.old.items ++ end_title end.now) }
    ensures err { OnErr result (out.new.items ≡ out.old.items) }
{
    let held = out.len();
    out.extend_from_slice(b"end ")?;
    or_cut_back(put_end(out, end), out, held)
}
