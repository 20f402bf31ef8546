//! The words of a line.

ghost use Rattle.std.specs.Prelude.{◌≡◌, ◌+◌, ◌++◌, ◌∷◌, [], length, take, position, not, OnOk, IfErr};
ghost use Rattle.std.specs.Str.{bytes_eq};
ghost use Rattle.vx_words.specs.Lines.{is_blank};
ghost use Rattle.vx_source_words.specs.Reading.{GivesBy};
ghost use Rattle.vx_source_words.specs.Tokens.{word_at, blank_place, unindented, begins_text, word_end, first_word, word_step, tokens};

use crate::fault::{LineFault, refused};
use crate::numbers::byte_at;
use crate::texts::{behind, quote_place};
use std::alloc::Global;
use vx_value::Name;
use vx_words::{are_plain, is_blank};

/// The word of a place, or no bytes behind the last one.
pub fn word_at(words: &[Name], place: usize) -> &[u8]
    ensures { result.now ≡ word_at words.now place }
{
    match words.get(place) {
        Some(word) => word.bytes(),
        None => &[],
    }
}

/// Whether a word is a text.
pub fn is_word(words: &[Name], place: usize, text: &[u8]) -> bool
    ensures { result ≡ bytes_eq (word_at words.now place) text.now }
{
    word_at(words, place) == text
}

fn first_blank(line: &[u8]) -> Option<usize>
    ensures { result ≡ position is_blank line.now }
{
    line.iter().position(|b| is_blank(*b))
}

fn first_filled(line: &[u8]) -> Option<usize>
    ensures { result ≡ position (λ b. not (is_blank b)) line.now }
{
    line.iter().position(|b| !is_blank(*b))
}

pub fn blank_place(line: &[u8]) -> usize
    ensures { result ≡ blank_place line.now }
{
    match first_blank(line) {
        Some(place) => place,
        None => line.len(),
    }
}

/// A line without the blanks in front.
pub fn unindented(line: &[u8]) -> &[u8]
    ensures { result.now ≡ unindented line.now }
{
    match first_filled(line) {
        Some(place) => behind(line, place),
        None => behind(line, line.len()),
    }
}

/// Whether a word begins as a text.
pub fn begins_text(line: &[u8]) -> bool
    ensures { result ≡ begins_text line.now }
{
    byte_at(line, 0) == b'"'
}

/// Where the first word ends.
#[tactic(auto, unfolding(crate::specs::Tokens::word_end))]
fn word_end(line: &[u8]) -> usize
    ensures { result ≡ word_end line.now }
{
    if !begins_text(line) {
        return blank_place(line);
    }
    let closed = line.len().min(quote_place(behind(line, 1)) + 2);
    closed + blank_place(behind(line, closed))
}

/// The first bytes of a line.
pub fn front(line: &[u8], count: usize) -> &[u8]
    ensures { result.now ≡ take count line.now }
{
    &line[..count.min(line.len())]
}

/// A word behind those that are there.
fn push_word(alloc: Global, words: &mut Vec<Name>, word: &[u8]) -> Result<(), LineFault>
    ensures ok { OnOk result (words.new.items ≡ words.old.items ++ word.now ∷ []) }
    ensures err { IfErr result (λ e. e ≡ LineFault.NoMemory) }
{
    words.push(Name::of(alloc, word)?)?;
    Ok(())
}

#[tactic(auto, unfolding(crate::specs::Tokens::first_word))]
fn first_word<'a>(
    alloc: Global,
    words: &mut Vec<Name>,
    line: &'a [u8],
) -> Result<&'a [u8], LineFault>
    ensures { GivesBy (λ rest. (words.new.items, rest.now)) result (first_word words.old.items line.now) }
{
    let end = word_end(line);
    let word = front(line, end);
    if !begins_text(line) && !are_plain(word) {
        return refused(1);
    }
    push_word(alloc, words, word)?;
    Ok(behind(line, end))
}

/// One word more, unless the line is at its end.
#[tactic(auto, unfolding(crate::specs::Tokens::word_step))]
fn next_word<'a>(
    alloc: Global,
    words: &mut Vec<Name>,
    line: &'a [u8],
) -> Result<&'a [u8], LineFault>
    ensures { GivesBy (λ rest. (words.new.items, rest.now)) result (word_step (words.old.items, line.now)) }
{
    let line = unindented(line);
    if line.is_empty() {
        return Ok(line);
    }
    first_word(alloc, words, line)
}

/// The words of a line.
#[tactic(auto, unfolding(crate::specs::Tokens::tokens))]
pub fn tokens(alloc: Global, line: &[u8]) -> Result<Vec<Name>, LineFault>
    ensures { GivesBy (λ words. words.items) result (tokens line.now) }
{
    let mut words = Vec::new(alloc);
    let mut rest = line;
    for _ in 0..line.len() {
        rest = next_word(alloc, &mut words, rest)?;
    }
    Ok(words)
}
