//! Reading a feature model from a DIMACS text, line by line.

ghost use Rattle.std.specs.Prelude.{◌≡◌, ◌+◌, ◌<◌, ◌≤◌, ◌∷◌, ◌==◌, position, slice_get, option_copied, IfOk, IfSome, ℕ, Option, is_some, if◌then◌else◌};
ghost use Rattle.vx_words.specs.Lines.{lines, words};
ghost use Rattle.vx_model.specs.Answers.{Answers, Judges};
ghost use Rattle.vx_model.specs.Models.{IsModel, HasOptionNames};
ghost use Rattle.vx_dimacs.specs.Draft.{drafted};
ghost use Rattle.vx_dimacs.specs.Dimacs.{numeral, plain_option, option_at, option_for, options_upto, end_of, told_by, first_told, dimacs_of};

use crate::draft::{Draft, line_of};
use crate::line::{NO_HEADER, told};
use crate::number::TOO_MANY;
use std::alloc::{AllocError, Global};
use vx_list::Items;
use vx_model::{FieldPlace, Model, ModelFault, OptionField, Refusal, fault_at};
use vx_value::Name;
use vx_words::{next_line, next_word};

/// More clauses than the header says, or fewer.
const CLAUSES: Refusal = Refusal::Reason(9);

const HEADER: &[u8] = b"p";

// v and a decimal number below 100.
fn numbered_name(alloc: Global, number: u32) -> Result<Name, AllocError>
    requires { number < 100 }
    ensures { IfOk result (λ name. name ≡ 118 ∷ numeral number) }
{
    let mut bytes = Vec::new(alloc);
    bytes.push(b'v')?;
    if number < 10 {
        bytes.push(48 + number as u8)?;
    } else {
        bytes.push(48 + (number / 10) as u8)?;
        bytes.push(48 + (number % 10) as u8)?;
    }
    Ok(Name::from_vec(bytes))
}

fn copy_place(alloc: Global, place: &FieldPlace) -> Result<FieldPlace, AllocError>
    ensures { IfOk result (λ p. p ≡ place.now) }
{
    let class = Name::of(alloc, place.class.bytes())?;
    let field = Name::of(alloc, place.field.bytes())?;
    Ok(FieldPlace { class, field })
}

fn copy_option(alloc: Global, option: &OptionField) -> Result<OptionField, AllocError>
    ensures { IfOk result (λ o. o ≡ option.now) }
{
    let name = Name::of(alloc, option.name.bytes())?;
    let place = match &option.place {
        None => None,
        Some(place) => Some(copy_place(alloc, place)?),
    };
    Ok(OptionField { name, place })
}

fn plain_option(alloc: Global, variable: u32) -> Result<OptionField, AllocError>
    requires { variable < 100 }
    ensures { IfOk result (λ o. o ≡ plain_option variable) }
{
    Ok(OptionField {
        name: numbered_name(alloc, variable)?,
        place: None,
    })
}

fn place_of(variables: &[u32], variable: u32) -> Option<usize>
    ensures { result ≡ position (λ k. k == variable) variables.now }
{
    variables.iter().position(|k| *k == variable)
}

fn option_at(options: &[OptionField], place: usize) -> Option<&OptionField>
    ensures { option_copied result ≡ slice_get options.now place }
{
    options.get(place)
}

// The option of a variable.
fn option_for(alloc: Global, draft: &Draft, variable: u32) -> Result<OptionField, AllocError>
    requires { variable < 100 }
    ensures { IfOk result (λ o. o ≡ option_for (drafted draft.now) variable) }
{
    let Some(place) = place_of(draft.variables.as_slice(), variable) else {
        return plain_option(alloc, variable);
    };
    match option_at(draft.names.as_slice(), place) {
        Some(option) => copy_option(alloc, option),
        None => plain_option(alloc, variable),
    }
}

// The options of the variables 1 to a number.
#[tactic(auto, unfolding(crate::specs::Dimacs::options_upto))]
fn options_upto(
    alloc: Global,
    draft: &Draft,
    variables: u32,
) -> Result<Vec<OptionField>, AllocError>
    requires { variables < 99 }
    ensures { IfOk result (λ v. v.items ≡ options_upto (drafted draft.now) variables) }
{
    let mut options = Vec::new(alloc);
    for k in 0..variables {
        options.push(option_for(alloc, draft, k + 1)?)?;
    }
    Ok(options)
}

// The model of all lines, or the reason why something is missing at their end.
#[tactic(auto, unfolding(crate::specs::Dimacs::end_of))]
fn end_of(alloc: Global, draft: Draft) -> Result<Model, Refusal>
    requires { IfSome draft.header (λ h. h.variables ≤ 64) }
    ensures { Judges result (end_of (drafted draft)) }
{
    let Some(header) = draft.header else {
        return Err(NO_HEADER);
    };
    if !draft.literals.is_empty() || draft.rules.len() < header.clauses as usize {
        return Err(CLAUSES);
    }
    let options = options_upto(alloc, &draft, header.variables)?;
    Ok(Model {
        options: Items::of(options),
        rules: Items::of(draft.rules),
    })
}

// What the header of a line tells, where its first word is p.
fn told_by(text: &[u8]) -> Option<u32>
    ensures { (other : Option ℕ) → told_by (words text.now) other ≡ (if is_some result then result else other) }
{
    let (first, rest) = next_word(text)?;
    if first != HEADER {
        return None;
    }
    Some(told(rest).unwrap_or(TOO_MANY))
}

// The number of variables that the first header tells.
fn first_told(bytes: &[u8]) -> Option<u32>
    ensures { result ≡ first_told (lines bytes.now) }
{
    let mut rest = bytes;
    while let Some((text, after)) = next_line(rest) {
        if let Some(variables) = told_by(text) {
            return Some(variables);
        }
        rest = after;
    }
    None
}

/// The feature model that a text of DIMACS CNF spells, or its first bad line, from 1 on, with the least reason: 3 a variable,
/// name or field that is named twice, 6 more than 64 variables, 7 a header that is missing where a number stands, repeated
/// or malformed, 8 a word that is no such number, 9 more clauses than the header says, at the line where the extra one
/// begins. What is missing at the end, the header (7), or a clause or its end (9), is a fault of the line after the last.
pub fn read_dimacs(alloc: Global, bytes: &[u8]) -> Result<Model, ModelFault>
    ensures exact { Answers result (dimacs_of bytes.now) }
    // What is read is a model that each call takes.
    ensures lawful { IfOk result IsModel }
    // The names of its options are those that a report takes.
    ensures names { IfOk result HasOptionNames }
{
    let most = first_told(bytes).unwrap_or(TOO_MANY);
    let mut draft = Draft::new(alloc);
    let mut rest = bytes;
    let mut number: u64 = 1;
    while let Some((text, after)) = next_line(rest) {
        let line = match line_of(alloc, most, &draft, text) {
            Ok(line) => line,
            Err(refusal) => return Err(fault_at(refusal, number)),
        };
        if let Err(refusal) = draft.add(alloc, line) {
            return Err(fault_at(refusal, number));
        }
        rest = after;
        number += 1;
    }
    match end_of(alloc, draft) {
        Ok(model) => Ok(model),
        Err(refusal) => Err(fault_at(refusal, number)),
    }
}
