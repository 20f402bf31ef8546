//! Texts in a source, and their modified UTF-8 (JVMS 4.4.7).

ghost use Rattle.std.specs.Prelude.{◌≡◌, ◌+◌, ◌-◌, ◌*◌, ◌/◌, ◌%◌, ◌≤◌, ◌<◌, ◌++◌, ◌==◌, length, drop, take, true, false, not, ◌&&◌, IsTrue, OnOk};
ghost use Rattle.vx_source_words.specs.Reading.{GivesBy};
ghost use Rattle.vx_pool.specs.Text.{is_tail};
ghost use Rattle.vx_source_words.specs.Texts.{quote_place, unit_bytes, low_bytes, piece_bytes, is_between, is_two, is_three, is_four, surrogates, escape_at, long_at, piece_at, piece_step, modified, is_quoted, text_of};

use crate::fault::{LineFault, refused};
use crate::numbers::{are_four_hex, byte_at, four_hex};
use std::alloc::{AllocError, Global};

/// One or two units of UTF-16, and how many bytes of the source spell them.
#[derive(Clone, Copy, Debug, PartialEq, Eq)]
pub struct Piece {
    pub unit: u16,
    pub low: Option<u16>,
    pub taken: usize,
}

/// Whether a byte is a quote that is not escaped.
fn is_closing(escaped: bool, byte: u8) -> bool
    ensures { result ≡ (not escaped && byte == 34) }
{
    !escaped && byte == b'"'
}

/// Whether a byte escapes the one behind it.
fn is_escape(escaped: bool, byte: u8) -> bool
    ensures { result ≡ (not escaped && byte == 92) }
{
    !escaped && byte == b'\\'
}

/// The place of the first quote that is not escaped, or the length where there is none.
pub fn quote_place(text: &[u8]) -> usize
    ensures value { result ≡ quote_place false text.now }
    ensures within { result ≤ length text.now }
{
    let mut escaped = false;
    for (place, byte) in text.iter().enumerate() {
        let closing = is_closing(escaped, *byte);
        if closing {
            return place;
        }
        escaped = is_escape(escaped, *byte);
    }
    text.len()
}

fn is_between(low: u8, high: u8, byte: u8) -> bool
    ensures { result ≡ is_between low high byte }
{
    low <= byte && byte <= high
}

fn is_tail(byte: u8) -> bool
    ensures { result ≡ is_tail byte }
{
    is_between(128, 191, byte)
}

fn is_two(a: u8, b: u8) -> bool
    ensures { result ≡ is_two a b }
{
    is_between(194, 223, a) && is_tail(b)
}

fn is_three(a: u8, b: u8, c: u8) -> bool
    ensures { result ≡ is_three a b c }
{
    is_between(224, 239, a)
        && is_tail(b)
        && is_tail(c)
        && (a != 224 || b >= 160)
        && (a != 237 || b <= 159)
}

fn is_four(a: u8, b: u8, c: u8, d: u8) -> bool
    ensures { result ≡ is_four a b c d }
{
    is_between(240, 244, a)
        && is_tail(b)
        && is_tail(c)
        && is_tail(d)
        && (a != 240 || b >= 144)
        && (a != 244 || b <= 143)
}

fn one_unit(unit: u16, taken: usize) -> Option<Piece>
    ensures { result ≡ Some (record { unit = unit; low = None; taken = taken }) }
{
    Some(Piece {
        unit,
        low: None,
        taken,
    })
}

/// The four bytes behind `\u`, or fewer at the end.
fn digits(text: &[u8]) -> &[u8]
    ensures { result.now ≡ take 4 (drop 2 text.now) }
{
    let from = text.len().min(2);
    let end = text.len().min(6);
    &text[from..end]
}

#[tactic(auto, unfolding(crate::specs::Texts::escape_at))]
fn escape_at(text: &[u8]) -> Option<Piece>
    ensures { result ≡ escape_at text.now }
{
    let next = byte_at(text, 1);
    if next == b'"' || next == b'\\' {
        return one_unit(u16::from(next), 2);
    }
    let digits = digits(text);
    if next == b'u' && are_four_hex(digits) {
        return one_unit(four_hex(digits), 6);
    }
    None
}

/// The surrogates of a character above 65,535, less 65,536.
fn surrogates(character: u32) -> Option<Piece>
    requires { character < 0x10_0000 }
    ensures { result ≡ surrogates character }
{
    Some(Piece {
        unit: (0xd800 + character / 1024) as u16,
        low: Some((0xdc00 + character % 1024) as u16),
        taken: 4,
    })
}

fn of_two(a: u8, b: u8) -> u16
    ensures { result ≡ a % 32 * 64 + b % 64 }
{
    u16::from(a % 32) * 64 + u16::from(b % 64)
}

fn of_three(a: u8, b: u8, c: u8) -> u16
    ensures { result ≡ a % 16 * 4096 + b % 64 * 64 + c % 64 }
{
    u16::from(a % 16) * 4096 + u16::from(b % 64) * 64 + u16::from(c % 64)
}

fn of_four(a: u8, b: u8, c: u8, d: u8) -> u32
    requires { IsTrue (is_four a b c d) }
    ensures value { result ≡ a % 8 * 262144 + b % 64 * 4096 + c % 64 * 64 + d % 64 - 65536 }
    ensures small { result < 0x10_0000 }
{
    let high = u32::from(a % 8) * 262_144 + u32::from(b % 64) * 4096;
    let low = u32::from(c % 64) * 64 + u32::from(d % 64);
    (high + low).saturating_sub(65_536)
}

#[tactic(auto, unfolding(crate::specs::Texts::long_at))]
fn long_at(a: u8, b: u8, c: u8, d: u8) -> Option<Piece>
    ensures { result ≡ long_at a b c d }
{
    if is_two(a, b) {
        return one_unit(of_two(a, b), 2);
    }
    if is_three(a, b, c) {
        return one_unit(of_three(a, b, c), 3);
    }
    if is_four(a, b, c, d) {
        return surrogates(of_four(a, b, c, d));
    }
    None
}

/// The first piece of a text.
#[tactic(auto, unfolding(crate::specs::Texts::piece_at))]
fn piece_at(text: &[u8]) -> Option<Piece>
    ensures { result ≡ piece_at text.now }
{
    let first = byte_at(text, 0);
    if first == b'\\' {
        return escape_at(text);
    }
    if first < 128 {
        return one_unit(u16::from(first), 1);
    }
    long_at(first, byte_at(text, 1), byte_at(text, 2), byte_at(text, 3))
}

/// A unit behind the bytes that are there.
fn put_unit(out: &mut Vec<u8>, unit: u16) -> Result<(), AllocError>
    ensures { OnOk result (out.new.items ≡ out.old.items ++ unit_bytes unit) }
{
    let tail = (128 + unit % 64) as u8;
    if (1..=127).contains(&unit) {
        out.push(unit as u8)?;
    } else if unit <= 0x7ff {
        out.extend_from_slice(&[(192 + unit / 64) as u8, tail])?;
    } else {
        out.extend_from_slice(&[
            (224 + unit / 4096) as u8,
            (128 + unit / 64 % 64) as u8,
            tail,
        ])?;
    }
    Ok(())
}

fn put_low(out: &mut Vec<u8>, unit: Option<u16>) -> Result<(), AllocError>
    ensures { OnOk result (out.new.items ≡ out.old.items ++ low_bytes unit) }
{
    match unit {
        None => Ok(()),
        Some(unit) => put_unit(out, unit),
    }
}

fn put_piece(out: &mut Vec<u8>, piece: Piece) -> Result<(), AllocError>
    ensures { OnOk result (out.new.items ≡ out.old.items ++ piece_bytes piece) }
{
    put_unit(out, piece.unit)?;
    put_low(out, piece.low)
}

/// What stands behind some bytes.
pub fn behind(text: &[u8], count: usize) -> &[u8]
    ensures { result.now ≡ drop count text.now }
{
    &text[count.min(text.len())..]
}

/// One piece more, and what stands behind it.
#[tactic(auto, unfolding(crate::specs::Texts::piece_step))]
fn next_piece<'a>(out: &mut Vec<u8>, text: &'a [u8]) -> Result<&'a [u8], LineFault>
    ensures { GivesBy (λ rest. (out.new.items, rest.now)) result (piece_step (out.old.items, text.now)) }
{
    if text.is_empty() {
        return Ok(text);
    }
    match piece_at(text) {
        None => refused(6),
        Some(piece) => {
            put_piece(out, piece)?;
            Ok(behind(text, piece.taken))
        }
    }
}

/// The modified UTF-8 of what stands between quotes.
fn modified(alloc: Global, text: &[u8]) -> Result<Vec<u8>, LineFault>
    ensures { GivesBy (λ out. out.items) result (modified text.now) }
{
    let mut out = Vec::new(alloc);
    let mut rest = text;
    for _ in 0..text.len() {
        rest = next_piece(&mut out, rest)?;
    }
    Ok(out)
}

fn is_quoted(word: &[u8]) -> bool
    ensures { result ≡ is_quoted word.now }
{
    byte_at(word, 0) == b'"' && quote_place(behind(word, 1)) + 2 == word.len()
}

/// What stands between the quotes.
fn inside(word: &[u8]) -> &[u8]
    ensures { result.now ≡ take (length word.now - 2) (drop 1 word.now) }
{
    let rest = behind(word, 1);
    &rest[..word.len().saturating_sub(2).min(rest.len())]
}

/// The text that a word spells, as the pool keeps it.
#[tactic(auto, unfolding(crate::specs::Texts::text_of))]
pub fn text_of(alloc: Global, word: &[u8]) -> Result<Vec<u8>, LineFault>
    ensures { GivesBy (λ text. text.items) result (text_of word.now) }
{
    if !is_quoted(word) {
        return refused(6);
    }
    let text = modified(alloc, inside(word))?;
    if text.len() > 65_535 {
        return refused(6);
    }
    Ok(text)
}
