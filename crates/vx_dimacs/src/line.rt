//! What a line of a DIMACS text says.

ghost use Rattle.std.specs.Prelude.{◌≡◌, ◌∷◌, ◌==◌, Some, None};
ghost use Rattle.std.specs.List.{list_all, list_any};
ghost use Rattle.std.specs.Str.{bytes_eq};
ghost use Rattle.std.specs.Char.{is_ascii_digit};
ghost use Rattle.vx_words.specs.Lines.{words};
ghost use Rattle.vx_model.specs.Answers.{Judges};
ghost use Rattle.vx_dimacs.specs.Dimacs.{is_numbered, is_variable_name, is_visible, named, clauses_of, header_clauses, told, behind_two, header_line, up_to};

use crate::number::{Mark, TOO_MANY, up_to};
use std::alloc::Global;
use vx_list::Items;
use vx_model::{FieldPlace, OptionField, Refusal, is_taken, slashed};
use vx_value::Name;
use vx_words::{is_name, next_word};

/// How many variables and clauses there are.
#[derive(Clone, Copy)]
pub struct Header {
    pub variables: u32,
    pub clauses: u32,
}

/// The name of a variable, counted from 1, and its field.
#[derive(Drop)]
pub struct Naming {
    pub variable: u32,
    pub option: OptionField,
}

/// What a line says.
#[derive(Drop)]
pub enum Line {
    Nothing,
    Names(Naming),
    Heads(Header),
    Numbers(Items<Mark>),
}

/// A variable, name or field that is named twice.
const TAKEN: Refusal = Refusal::Reason(3);

const TOO_MANY_VARIABLES: Refusal = Refusal::Reason(6);

/// A header that is missing, repeated or malformed.
pub const NO_HEADER: Refusal = Refusal::Reason(7);

const MOST_CLAUSES: u32 = 1_000_000;

fn are_digits(bytes: &[u8]) -> bool
    ensures { result ≡ list_all is_ascii_digit bytes.now }
{
    bytes.iter().all(|b| b.is_ascii_digit())
}

pub fn are_visible(bytes: &[u8]) -> bool
    ensures { result ≡ list_all is_visible bytes.now }
{
    bytes.iter().all(|b| 33 <= *b && *b <= 126)
}

// Whether a word is v and digits.
fn is_numbered(word: &[u8]) -> bool
    ensures { result ≡ is_numbered word.now }
{
    match word {
        [] => false,
        [first, rest @ ..] => *first == b'v' && (!rest.is_empty() && are_digits(rest)),
    }
}

// Whether a name is v and this number.
fn is_own(number: &[u8], name: &[u8]) -> bool
    ensures { result ≡ bytes_eq name.now (118 ∷ number.now) }
{
    match name {
        [] => false,
        [first, rest @ ..] => *first == b'v' && rest == number,
    }
}

// Whether a variable, as its number is written, may have this name.
#[tactic(auto, unfolding(crate::specs::Dimacs::is_variable_name))]
pub fn is_variable_name(number: &[u8], name: &[u8]) -> bool
    ensures { result ≡ is_variable_name number.now name.now }
{
    is_name(name) && (!is_numbered(name) || is_own(number, name))
}

pub fn is_named(variables: &[u32], variable: u32) -> bool
    ensures { result ≡ list_any (λ k. k == variable) variables.now }
{
    variables.iter().any(|k| *k == variable)
}

/// The number of variables in a header, by what stands behind its first word. 65 stands for more than 64.
pub fn told(text: &[u8]) -> Option<u32>
    ensures { result ≡ told (words text.now) }
{
    let (format, rest) = next_word(text)?;
    let (variables, _) = next_word(rest)?;
    if format != CNF {
        return None;
    }
    up_to(TOO_MANY, variables)
}

const CNF: &[u8] = b"cnf";

fn clauses_of(variables: u32, word: &[u8]) -> Result<Line, Refusal>
    ensures { Judges result (clauses_of variables (up_to 1000001 word.now)) }
{
    let Some(clauses) = up_to(MOST_CLAUSES + 1, word) else {
        return Err(NO_HEADER);
    };
    if MOST_CLAUSES < clauses {
        return Err(NO_HEADER);
    }
    Ok(Line::Heads(Header { variables, clauses }))
}

// The number of clauses, by what stands behind the number of variables.
fn header_clauses(variables: u32, text: &[u8]) -> Result<Line, Refusal>
    ensures { Judges result (header_clauses variables (words text.now)) }
{
    let Some((clauses, rest)) = next_word(text) else {
        return Err(NO_HEADER);
    };
    if next_word(rest).is_some() {
        return Err(NO_HEADER);
    }
    clauses_of(variables, clauses)
}

// What stands behind the first two words.
fn behind_two(text: &[u8]) -> &[u8]
    ensures { words result.now ≡ behind_two (words text.now) }
{
    let Some((_, rest)) = next_word(text) else {
        return &text[text.len()..];
    };
    let Some((_, rest)) = next_word(rest) else {
        return &text[text.len()..];
    };
    rest
}

/// The header, by what stands behind its first word.
#[tactic(auto, unfolding(crate::specs::Dimacs::header_line))]
pub fn header_line(before: Option<Header>, text: &[u8]) -> Result<Line, Refusal>
    ensures { Judges result (header_line before (words text.now)) }
{
    let Some(variables) = told(text) else {
        return Err(NO_HEADER);
    };
    if 64 < variables {
        return Err(TOO_MANY_VARIABLES);
    }
    if before.is_some() {
        return Err(NO_HEADER);
    }
    header_clauses(variables, behind_two(text))
}
