//! The comments of a DIMACS text that begin as a name line does, and are none.

ghost use Rattle.std.specs.Prelude.{◌≡◌, ◌++◌, ◌∷◌, ◌==◌, ◌&&◌, ◌+◌, [], OnErr, OnOk, nat_le, not};
ghost use Rattle.std.specs.List.{list_all};
ghost use Rattle.std.specs.Char.{is_ascii_digit};
ghost use Rattle.std.specs.Str.{bytes_eq};
ghost use Rattle.vx_words.specs.Lines.{lines, words};
ghost use Rattle.vx_dimacs.specs.Dimacs.{is_numbered, is_variable_name, is_visible};
ghost use Rattle.vx_overview.specs.Remarks.{place_line, reason_line, reason_of, remark_behind, remark_in, remark_lines, remark_of, remarks_from, remarks_text};

use std::alloc::AllocError;
use vx_list::or_cut_back;
use vx_report::put_spelled;
use vx_words::{TEXT, decimal_up_to, is_name, next_line, next_word, put_number};

/// Why a comment whose second word is a number, with a word behind it, is no name line.
#[derive(Clone, Copy)]
pub enum Remark {
    /// The number is 0, above that of the variables, or above 64.
    NoVariable,
    /// The third word is no name.
    NoName,
    /// The third word is v and digits, which are not the variable's own.
    OtherVariable,
    /// Behind the name there are neither no word nor two.
    WordCount,
    /// A byte of the class or the field is no printable ASCII.
    NotPlain,
}

fn are_digits(bytes: &[u8]) -> bool
    ensures { result ≡ list_all is_ascii_digit bytes.now }
{
    bytes.iter().all(|b| b.is_ascii_digit())
}

fn are_visible(bytes: &[u8]) -> bool
    ensures { result ≡ list_all is_visible bytes.now }
{
    bytes.iter().all(|b| 33 <= *b && *b <= 126)
}

/// Whether a word is v and digits.
fn is_numbered(word: &[u8]) -> bool
    ensures { result ≡ is_numbered word.now }
{
    match word {
        [] => false,
        [first, rest @ ..] => *first == b'v' && (!rest.is_empty() && are_digits(rest)),
    }
}

/// Whether a name is v and this number.
fn is_own(number: &[u8], name: &[u8]) -> bool
    ensures { result ≡ bytes_eq name.now (118 ∷ number.now) }
{
    match name {
        [] => false,
        [first, rest @ ..] => *first == b'v' && rest == number,
    }
}

/// Whether a variable, as its number is written, may have this name.
#[tactic(auto, unfolding(vx_dimacs::specs::Dimacs::is_variable_name))]
fn is_variable_name(number: &[u8], name: &[u8]) -> bool
    ensures { result ≡ is_variable_name number.now name.now }
{
    is_name(name) && (!is_numbered(name) || is_own(number, name))
}

/// What is wrong with a class and a field.
fn remark_of_field(class: &[u8], field: &[u8]) -> Option<Remark>
    ensures { result ≡ remark_behind (class.now ∷ field.now ∷ []) }
{
    if are_visible(class) && are_visible(field) {
        None
    } else {
        Some(Remark::NotPlain)
    }
}

/// What is wrong behind the name.
fn remark_behind(text: &[u8]) -> Option<Remark>
    ensures { result ≡ remark_behind (words text.now) }
{
    let Some((class, rest)) = next_word(text) else {
        return None;
    };
    let Some((field, rest)) = next_word(rest) else {
        return Some(Remark::WordCount);
    };
    if next_word(rest).is_some() {
        return Some(Remark::WordCount);
    }
    remark_of_field(class, field)
}

/// The first that fails, of so many variables.
fn remark_of(most: u64, variable: u64, number: &[u8], name: &[u8], rest: &[u8]) -> Option<Remark>
    ensures { result ≡ remark_of most variable number.now name.now (words rest.now) }
{
    if !((1 <= variable && variable <= 64) && variable <= most) {
        return Some(Remark::NoVariable);
    }
    if !is_name(name) {
        return Some(Remark::NoName);
    }
    if !is_variable_name(number, name) {
        return Some(Remark::OtherVariable);
    }
    remark_behind(rest)
}

/// What is remarked of a line.
fn remark_in(most: u64, line: &[u8]) -> Option<Remark>
    ensures { result ≡ remark_in most (words line.now) }
{
    let (first, rest) = next_word(line)?;
    let (number, rest) = next_word(rest)?;
    let (name, rest) = next_word(rest)?;
    if first != COMMENT {
        return None;
    }
    let variable = decimal_up_to(number, 65)?;
    remark_of(most, variable, number, name, rest)
}

const COMMENT: &[u8] = b"c";

fn reason_of(remark: Remark) -> &'static [u8]
    ensures { result.now ≡ reason_of remark }
{
    match remark {
        Remark::NoVariable => b"the number is that of no variable",
        Remark::NoName => b"the third word is no name",
        Remark::OtherVariable => b"the third word is v and other digits",
        Remark::WordCount => b"the line has neither three words nor five",
        Remark::NotPlain => b"the class or the field isn't printable",
    }
}

/// Puts a line with its number. Want of memory leaves the text as it was.
#[tactic(auto, unfolding(crate::specs::Remarks::place_line), using(std::proofs::lemmas::List::append_assoc, std::proofs::lemmas::List::take_at))]
fn put_place(out: &mut Vec<u8>, line: u64, text: &[u8]) -> Result<(), AllocError>
    ensures ok { OnOk result (out.new.items ≡ out.old.items ++ place_line line text.now) }
    ensures err { OnErr result (out.new.items ≡ out.old.items) }
{
    let held = out.len();
    out.extend_from_slice(b"comment line ")?;
    or_cut_back(put_number(out, line), out, held)?;
    or_cut_back(out.extend_from_slice(b": "), out, held)?;
    or_cut_back(put_spelled(out, TEXT, text), out, held)?;
    or_cut_back(out.extend_from_slice(b"\n"), out, held)
}

/// Puts why a line is no name line. Want of memory leaves the text as it was.
#[tactic(auto, unfolding(crate::specs::Remarks::reason_line), using(std::proofs::lemmas::List::append_assoc, std::proofs::lemmas::List::take_at))]
fn put_reason(out: &mut Vec<u8>, remark: Remark) -> Result<(), AllocError>
    ensures ok { OnOk result (out.new.items ≡ out.old.items ++ reason_line remark) }
    ensures err { OnErr result (out.new.items ≡ out.old.items) }
{
    let held = out.len();
    out.extend_from_slice(b"reason: ")?;
    or_cut_back(out.extend_from_slice(reason_of(remark)), out, held)?;
    or_cut_back(out.extend_from_slice(b"\n"), out, held)
}

/// Puts a line by its number, and what is remarked of it. Want of memory leaves the text as it was.
#[tactic(auto, using(std::proofs::lemmas::List::append_assoc, std::proofs::lemmas::List::take_at))]
fn put_remark(
    out: &mut Vec<u8>,
    line: u64,
    text: &[u8],
    remark: Option<Remark>,
) -> Result<(), AllocError>
    ensures ok { OnOk result (out.new.items ≡ out.old.items ++ remark_lines line text.now remark) }
    ensures err { OnErr result (out.new.items ≡ out.old.items) }
{
    match remark {
        Some(remark) => {
            let held = out.len();
            put_place(out, line, text)?;
            or_cut_back(put_reason(out, remark), out, held)
        }
        None => Ok(()),
    }
}

/// Puts behind a text the comments of a DIMACS text that are no name lines, though their first three words are `c`, a number and another
/// one: each with its number and why, for a model of so many variables. They say nothing of the model, so a variable that was to be
/// bound by one isn't. Want of memory leaves the text as it was.
pub fn put_remarks(out: &mut Vec<u8>, most: u64, text: &[u8]) -> Result<(), AllocError>
    ensures ok { OnOk result (out.new.items ≡ out.old.items ++ remarks_text most text.now) }
    ensures err { OnErr result (out.new.items ≡ out.old.items) }
{
    let held = out.len();
    let mut rest = text;
    let mut number = 1;
    while let Some((line, behind)) = next_line(rest) {
        let remark = remark_in(most, line);
        or_cut_back(put_remark(out, number, line, remark), out, held)?;
        rest = behind;
        number += 1;
    }
    Ok(())
}
