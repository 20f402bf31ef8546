//! Words and numbers of a line.

ghost use Rattle.std.specs.Prelude.{◌≡◌, ◌^◌, ◌+◌, ◌<◌, option_map, IfOk, IfSome};
ghost use Rattle.vx_report_line.specs.Parsing.{behind, cut, number_in, leading, escaped_byte, first_byte, text_in, root_in};

use std::alloc::{AllocError, Global};
use vx_value::Name;
use vx_words::{hex_value, is_plain, printed_u64, printed_u128};

/// What stands behind a word.
pub fn behind<'a>(word: &[u8], text: &'a [u8]) -> Option<&'a [u8]>
    ensures { option_map (λ rest. rest.now) result ≡ behind word.now text.now }
{
    text.strip_prefix(word)
}

/// What stands before the first space, and what behind it.
pub fn cut(text: &[u8]) -> Option<(&[u8], &[u8])>
    ensures { option_map (λ parts. (parts.0.now, parts.1.now)) result ≡ cut text.now }
{
    for (place, byte) in text.iter().enumerate() {
        if *byte == b' ' {
            return Some((&text[..place], &text[place + 1..]));
        }
    }
    None
}

/// The number of at most 128 bits whose decimal digits a word is.
pub fn wide_number(word: &[u8]) -> Option<u128>
    ensures { result ≡ number_in (2 ^ 128) word.now }
{
    printed_u128(word)
}

/// The number of at most 64 bits whose decimal digits a word is.
pub fn number(word: &[u8]) -> Option<u64>
    ensures { result ≡ number_in (2 ^ 64) word.now }
{
    printed_u64(word)
}

/// The number below a bound whose decimal digits a word is.
pub fn number_below(bound: u64, word: &[u8]) -> Option<u64>
    ensures value { result ≡ number_in bound word.now }
    ensures small { IfSome result (λ n. n < bound) }
{
    let n = number(word)?;
    if n < bound { Some(n) } else { None }
}

/// A number of at most 64 bits, and what stands behind the space after it.
#[tactic(auto, unfolding(crate::specs::Parsing::leading))]
pub fn leading(text: &[u8]) -> Option<(u64, &[u8])>
    ensures { option_map (λ parts. (parts.0, parts.1.now)) result ≡ leading (2 ^ 64) text.now }
{
    let (word, rest) = cut(text)?;
    let n = number(word)?;
    Some((n, rest))
}

/// A node that isn't never, and what stands behind the space after it.
#[tactic(auto, unfolding(crate::specs::Parsing::root_in))]
pub fn root(text: &[u8]) -> Option<(u64, &[u8])>
    ensures { option_map (λ parts. (parts.0, parts.1.now)) result ≡ root_in text.now }
{
    let (node, rest) = leading(text)?;
    if node >= 1 { Some((node, rest)) } else { None }
}

/// The byte of an escape, which is one that doesn't stand for itself.
#[tactic(auto, unfolding(crate::specs::Parsing::escaped_byte))]
fn escaped_byte(least: u8, high: u8, low: u8) -> Option<u8>
    ensures { result ≡ escaped_byte least high low }
{
    let high = hex_value(high)?;
    let low = hex_value(low)?;
    let byte = 16 * high + low;
    if is_plain(least, byte) {
        None
    } else {
        Some(byte)
    }
}

/// The first byte that a text or a word spells, and what stands behind it.
#[tactic(auto, unfolding(crate::specs::Parsing::first_byte))]
fn first_byte(least: u8, text: &[u8]) -> Option<(u8, &[u8])>
    ensures { option_map (λ parts. (parts.0, parts.1.now)) result ≡ first_byte least text.now }
{
    match text {
        [b'\\', high, low, rest @ ..] => {
            let byte = escaped_byte(least, *high, *low)?;
            Some((byte, rest))
        }
        [byte, rest @ ..] if is_plain(least, *byte) => Some((*byte, rest)),
        _ => None,
    }
}

/// The bytes of a text or a word that isn't empty.
#[tactic(auto, unfolding(crate::specs::Parsing::text_in))]
pub fn text_in(alloc: Global, least: u8, text: &[u8]) -> Result<Option<Name>, AllocError>
    ensures { IfOk result (λ bytes. bytes ≡ text_in least text.now) }
{
    if text.is_empty() {
        return Ok(None);
    }
    let mut bytes = Vec::new(alloc);
    let mut rest = text;
    while !rest.is_empty() {
        let Some((byte, after)) = first_byte(least, rest) else {
            return Ok(None);
        };
        bytes.push(byte)?;
        rest = after;
    }
    Ok(Some(Name::from_vec(bytes)))
}
