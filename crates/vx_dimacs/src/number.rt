//! Numbers of clauses.

ghost use Rattle.std.specs.Prelude.{◌≡◌, Some, None};
ghost use Rattle.vx_dimacs.specs.Dimacs.{up_to, unsigned, is_negative, is_number, mark_of};

use vx_words::decimal_up_to;

/// A number of a clause: 0, which ends it, or a variable that is on or off, counted from 0.
#[derive(Clone, Copy)]
pub enum Mark {
    End,
    On(u32),
    Off(u32),
}

/// A number above every number of options, in whose place it stands.
pub const TOO_MANY: u32 = 65;

/// The number that a word spells, or `cap` where it is greater.
pub fn up_to(cap: u32, word: &[u8]) -> Option<u32>
    ensures { result ≡ up_to cap word.now }
{
    let number = decimal_up_to(word, u64::from(cap))?;
    Some(number as u32)
}

fn is_negative(word: &[u8]) -> bool
    ensures { result ≡ is_negative word.now }
{
    match word {
        [] => false,
        [first, ..] => *first == b'-',
    }
}

// A word without the `-` in front.
fn unsigned(word: &[u8]) -> &[u8]
    ensures { result.now ≡ unsigned word.now }
{
    match word {
        [b'-', rest @ ..] => rest,
        _ => word,
    }
}

/// Whether a word is a whole number: an optional `-` and decimal digits without leading zero.
pub fn is_number(word: &[u8]) -> bool
    ensures { result ≡ is_number word.now }
{
    up_to(TOO_MANY, unsigned(word)).is_some()
}

/// The number that a word is, for so many variables.
pub fn mark_of(variables: u32, word: &[u8]) -> Option<Mark>
    ensures { result ≡ mark_of variables word.now }
{
    let number = up_to(TOO_MANY, unsigned(word))?;
    if number == 0 {
        return Some(Mark::End);
    }
    if number > variables {
        return None;
    }
    if is_negative(word) {
        return Some(Mark::Off(number - 1));
    }
    Some(Mark::On(number - 1))
}
