//! Tokens of a rule's text.

ghost use Rattle.std.specs.Prelude.{◌≡◌, ◌≤◌, ◌<◌, ◌∷◌, [], length, IfOk, IfSome, IsNone, ◌&&◌};
ghost use Rattle.std.specs.List.{prefix_len};
ghost use Rattle.std.specs.Str.{bytes_eq};
ghost use Rattle.vx_words.specs.Names.{is_word_byte};
ghost use Rattle.vx_model.specs.Tokens.{pieces, number_of, word_token, token_of, tokens, piece_length};

use crate::model::OptionField;
use std::alloc::{AllocError, Global};
use vx_words::{is_name, is_word_byte, skip_blanks};

/// A token of a rule's text. `Name` has the number of an option, or the number of all options for a name that none has.
#[derive(Clone, Copy)]
pub enum Token {
    Not,
    Open,
    Close,
    And,
    Or,
    Arrow,
    True,
    False,
    Name(u32),
    Other,
}

const TRUE: &[u8] = b"true";

const FALSE: &[u8] = b"false";

fn has_name(option: &OptionField, name: &[u8]) -> bool
    ensures { result ≡ bytes_eq option.now.name name.now }
{
    option.name.bytes() == name
}

// How many options stand before the one of a name, or how many there are where none has it.
fn number_of(options: &[OptionField], name: &[u8]) -> usize
    ensures value { result ≡ number_of options.now name.now }
    ensures within { result ≤ length options.now }
{
    options.iter().take_while(|o| !has_name(o, name)).count()
}

fn word_token(options: &[OptionField], piece: &[u8]) -> Token
    requires { length options.now ≤ 64 }
    ensures { result ≡ word_token options.now piece.now }
{
    if piece == TRUE {
        Token::True
    } else if piece == FALSE {
        Token::False
    } else if is_name(piece) {
        Token::Name(number_of(options, piece) as u32)
    } else {
        Token::Other
    }
}

// What a piece of a rule's text stands for after these options.
#[tactic(auto, unfolding(crate::specs::Tokens::token_of))]
fn token_of(options: &[OptionField], piece: &[u8]) -> Token
    requires { length options.now ≤ 64 }
    ensures { result ≡ token_of options.now piece.now }
{
    match piece {
        [b'!'] => Token::Not,
        [b'('] => Token::Open,
        [b')'] => Token::Close,
        [b'&'] => Token::And,
        [b'|'] => Token::Or,
        [b'-', b'>'] => Token::Arrow,
        _ => word_token(options, piece),
    }
}

// How many bytes the word in front has.
fn word_length(text: &[u8]) -> usize
    ensures value { result ≡ prefix_len is_word_byte text.now }
    ensures within { result ≤ length text.now }
{
    text.iter().take_while(|b| is_word_byte(**b)).count()
}

// How many bytes the piece in front has.
fn piece_length(text: &[u8]) -> usize
    ensures value { result ≡ piece_length text.now }
    ensures within { result ≤ length text.now }
{
    match text {
        [] => 0,
        [b'-', b'>', ..] => 2,
        [first, ..] if !is_word_byte(*first) => 1,
        _ => word_length(text),
    }
}

// The first piece of a text and what stands behind it, or `None` where there is none.
fn next_piece(text: &[u8]) -> Option<(&[u8], &[u8])>
    ensures none { IsNone result → pieces text.now ≡ [] }
    ensures some { IfSome result (λ r. pieces text.now ≡ r.0.now ∷ pieces r.1.now) }
    ensures shorter { IfSome result (λ r. length r.1.now < length text.now) }
{
    let text = skip_blanks(text);
    if text.is_empty() {
        return None;
    }
    Some(text.split_at(piece_length(text)))
}

/// The tokens of a rule's text after these options.
pub fn tokens_of(
    alloc: Global,
    options: &[OptionField],
    text: &[u8],
) -> Result<Vec<Token>, AllocError>
    requires { length options.now ≤ 64 }
    ensures { IfOk result (λ v. v.items ≡ tokens options.now text.now) }
{
    let mut tokens = Vec::new(alloc);
    let mut rest = text;
    while let Some((piece, after)) = next_piece(rest) {
        tokens.push(token_of(options, piece))?;
        rest = after;
    }
    Ok(tokens)
}
