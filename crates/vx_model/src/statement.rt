//! What a line of a model's text says.

ghost use Rattle.std.specs.Prelude.{◌≡◌, ◌≤◌, ◌<◌, length, IfOk, map, Some, None};
ghost use Rattle.std.specs.List.{list_any};
ghost use Rattle.vx_words.specs.Lines.{words};
ghost use Rattle.vx_model.specs.Text.{begins_comment, slash, is_same_place, clashes, declared, option_line, is_unknown, rule_line, statement_of};
ghost use Rattle.vx_model.specs.Answers.{Judges};

use crate::expr::Expr;
use crate::model::{FieldPlace, OptionField};
use crate::rule::{RuleFault, rule_of};
use crate::token::{Token, tokens_of};
use std::alloc::{AllocError, AllocFailed, Global};
use vx_value::Name;
use vx_words::{are_plain, is_name, next_word};

/// What a line says: nothing, an option, or a rule.
#[derive(Drop)]
pub enum Statement {
    Nothing,
    Declares(OptionField),
    Demands(Expr),
}

/// Why a line says nothing that fits: want of memory, or the least reason that applies.
#[derive(Clone, Copy, Debug, PartialEq, Eq)]
pub enum Refusal {
    NoMemory,
    Reason(u8),
}

impl From<AllocError> for Refusal {
    ghost use Rattle.std.specs.Prelude.{◌≡◌};
    ghost use Rattle.vx_model.specs.declared.statement.Refusal.TheVariants.{NoMemory};

    ghost from_gives = { λ _ e. e ≡ NoMemory };

    fn from(_error: AllocError) -> Refusal {
        Refusal::NoMemory
    }
}

impl<T: Drop> From<AllocFailed<T>> for Refusal {
    ghost use Rattle.std.specs.Prelude.{◌≡◌};
    ghost use Rattle.vx_model.specs.declared.statement.Refusal.TheVariants.{NoMemory};

    ghost from_gives = { λ _ e. e ≡ NoMemory };

    fn from(_error: AllocFailed<T>) -> Refusal {
        Refusal::NoMemory
    }
}

/// No form of line.
const NO_FORM: Refusal = Refusal::Reason(1);

const NO_NAME: Refusal = Refusal::Reason(2);

/// A name or a field that is taken.
const TAKEN: Refusal = Refusal::Reason(3);

const NO_RULE: Refusal = Refusal::Reason(4);

const UNKNOWN_OPTION: Refusal = Refusal::Reason(5);

const TOO_MANY_OPTIONS: Refusal = Refusal::Reason(6);

/// The greatest number of options.
const MOST_OPTIONS: usize = 64;

const OPTION: &[u8] = b"option";

const RULE: &[u8] = b"rule";

/// Whether a word is the first of a comment.
pub fn begins_comment(word: &[u8]) -> bool
    ensures { result ≡ begins_comment word.now }
{
    match word {
        [] => false,
        [first, ..] => *first == b'#',
    }
}

/// The name of a class, with a `/` for each `.`.
pub fn slashed(alloc: Global, class: &[u8]) -> Result<Name, AllocError>
    ensures { IfOk result (λ name. name ≡ map slash class.now) }
{
    let bytes: Vec<u8> = class
        .iter()
        .map(|b| if *b == b'.' { b'/' } else { *b })
        .collect(alloc)?;
    Ok(Name::from_vec(bytes))
}

fn is_same_place(a: &Option<FieldPlace>, b: &Option<FieldPlace>) -> bool
    ensures { result ≡ is_same_place a.now b.now }
{
    match (a, b) {
        (Some(a), Some(b)) => {
            a.class.bytes() == b.class.bytes() && a.field.bytes() == b.field.bytes()
        }
        _ => false,
    }
}

fn clashes(name: &[u8], place: &Option<FieldPlace>, option: &OptionField) -> bool
    ensures { result ≡ clashes name.now place.now option.now }
{
    option.name.bytes() == name || is_same_place(&option.place, place)
}

/// Whether one of the options has this name or this field.
pub fn is_taken(options: &[OptionField], name: &[u8], place: &Option<FieldPlace>) -> bool
    ensures { result ≡ list_any (clashes name.now place.now) options.now }
{
    options.iter().any(|o| clashes(name, place, o))
}

/// The option of a name and a field, behind these options.
#[tactic(auto, unfolding(crate::specs::Text::declared))]
pub fn declared(
    alloc: Global,
    options: &[OptionField],
    name: &[u8],
    place: Option<FieldPlace>,
) -> Result<Statement, Refusal>
    ensures { Judges result (declared options.now name.now place) }
{
    if !is_name(name) {
        return Err(NO_NAME);
    }
    if is_taken(options, name, &place) {
        return Err(TAKEN);
    }
    if MOST_OPTIONS <= options.len() {
        return Err(TOO_MANY_OPTIONS);
    }
    let name = Name::of(alloc, name)?;
    Ok(Statement::Declares(OptionField { name, place }))
}

fn option_line(alloc: Global, options: &[OptionField], text: &[u8]) -> Result<Statement, Refusal>
    ensures { Judges result (option_line options.now (words text.now)) }
{
    let Some((name, rest)) = next_word(text) else {
        return Err(NO_FORM);
    };
    let Some((class, rest)) = next_word(rest) else {
        return declared(alloc, options, name, None);
    };
    let Some((field, rest)) = next_word(rest) else {
        return Err(NO_FORM);
    };
    if next_word(rest).is_some() {
        return Err(NO_FORM);
    }
    let class = slashed(alloc, class)?;
    let field = Name::of(alloc, field)?;
    declared(alloc, options, name, Some(FieldPlace { class, field }))
}

fn is_unknown(token: Token, options: usize) -> bool
    ensures { result ≡ is_unknown options token }
{
    match token {
        Token::Name(option) => options <= option as usize,
        _ => false,
    }
}

fn names_unknown(tokens: &[Token], options: usize) -> bool
    ensures { result ≡ list_any (is_unknown options) tokens.now }
{
    tokens.iter().any(|t| is_unknown(*t, options))
}

#[tactic(auto, unfolding(crate::specs::Text::rule_line))]
fn rule_line(alloc: Global, options: &[OptionField], text: &[u8]) -> Result<Statement, Refusal>
    requires { length options.now ≤ 64 }
    ensures { Judges result (rule_line options.now text.now) }
{
    let tokens = tokens_of(alloc, options, text)?;
    let rule = match rule_of(alloc, tokens.as_slice()) {
        Ok(rule) => rule,
        Err(RuleFault::NoMemory) => return Err(Refusal::NoMemory),
        Err(RuleFault::Malformed) => return Err(NO_RULE),
    };
    if names_unknown(tokens.as_slice(), options.len()) {
        return Err(UNKNOWN_OPTION);
    }
    Ok(Statement::Demands(rule))
}

/// What a line says after these options, or the least reason why it is bad.
#[tactic(auto, unfolding(crate::specs::Text::statement_of))]
pub fn statement_of(
    alloc: Global,
    options: &[OptionField],
    line: &[u8],
) -> Result<Statement, Refusal>
    requires { length options.now ≤ 64 }
    ensures { Judges result (statement_of options.now line.now) }
{
    let Some((first, rest)) = next_word(line) else {
        return Ok(Statement::Nothing);
    };
    if begins_comment(first) {
        return Ok(Statement::Nothing);
    }
    if !are_plain(line) {
        return Err(NO_FORM);
    }
    if first == OPTION {
        return option_line(alloc, options, rest);
    }
    if first == RULE {
        return rule_line(alloc, options, rest);
    }
    Err(NO_FORM)
}
