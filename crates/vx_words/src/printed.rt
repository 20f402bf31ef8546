//! Decimal numbers as they are printed.

ghost use Rattle.std.specs.Prelude.{◌≡◌, ◌≢◌, ◌++◌, ◌<◌, ◌^◌, ℕ, MatchOption, OnErr, OnOk, decimal};

use itoa::{Buffer, Integer};
use std::alloc::AllocError;

/// Puts a number in decimal digits, behind a `-` where it is below 0. Want of memory leaves the text as it was.
pub fn put_number<I: Integer>(out: &mut Vec<u8>, n: I) -> Result<(), AllocError>
    ensures ok { OnOk result (out.new.items ≡ out.old.items ++ I.text n) }
    ensures err { OnErr result (out.new.items ≡ out.old.items) }
{
    out.extend_from_slice(Buffer::new().format(n).as_bytes())
}

/// The number of at most 128 bits whose decimal digits a word is, without sign or leading zero.
pub fn printed_u128(word: &[u8]) -> Option<u128>
    ensures { MatchOption result ((n : ℕ) → n < 2 ^ 128 → word.now ≢ decimal n) (λ n. (word.now ≡ decimal n) × (n < 2 ^ 128)) }
{
    let Ok(text) = str::from_utf8(word) else {
        return None;
    };
    let Ok(n) = text.parse::<u128>() else {
        return None;
    };
    let mut buffer = Buffer::new();
    if buffer.format(n).as_bytes() == word {
        Some(n)
    } else {
        None
    }
}

/// The number of at most 64 bits whose decimal digits a word is, without sign or leading zero.
pub fn printed_u64(word: &[u8]) -> Option<u64>
    ensures { MatchOption result ((n : ℕ) → n < 2 ^ 64 → word.now ≢ decimal n) (λ n. (word.now ≡ decimal n) × (n < 2 ^ 64)) }
{
    let n = printed_u128(word)?;
    if n <= u64::MAX as u128 {
        Some(n as u64)
    } else {
        None
    }
}
