//! The names of options.

ghost use Rattle.std.specs.Prelude.{◌≡◌};
ghost use Rattle.std.specs.List.{list_all};
ghost use Rattle.vx_words.specs.Names.{is_word_byte, begins_with_digit, is_name};

const TRUE: &[u8] = b"true";

const FALSE: &[u8] = b"false";

/// Whether a byte is a letter, a digit or `_`.
pub fn is_word_byte(byte: u8) -> bool
    ensures { result ≡ is_word_byte byte }
{
    byte.is_ascii_alphabetic() || byte.is_ascii_digit() || byte == b'_'
}

fn are_word_bytes(word: &[u8]) -> bool
    ensures { result ≡ list_all is_word_byte word.now }
{
    word.iter().all(|b| is_word_byte(*b))
}

fn begins_with_digit(word: &[u8]) -> bool
    ensures { result ≡ begins_with_digit word.now }
{
    match word {
        [] => false,
        [first, ..] => first.is_ascii_digit(),
    }
}

/// Whether a word is the name of an option: 1 to 64 letters, digits or `_`, of which the first is no digit, but neither
/// `true` nor `false` (own).
#[tactic(auto, unfolding(crate::specs::Names::is_name))]
pub fn is_name(word: &[u8]) -> bool
    ensures { result ≡ is_name word.now }
{
    (1 <= word.len() && word.len() <= 64)
        && (are_word_bytes(word) && !begins_with_digit(word))
        && !(word == TRUE || word == FALSE)
}
