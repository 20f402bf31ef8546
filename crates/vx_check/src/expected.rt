//! Reading what is expected, line by line.

ghost use Rattle.std.specs.Prelude.{◌≡◌, ◌+◌, ◌++◌, ◌∷◌, [], IfOk, IfSome, OnOk, Some, true, codes, length, option_map};
ghost use Rattle.std.specs.List.{flat_map, list_all};
ghost use Rattle.vx_list.specs.Answers.{AnswersBy};
ghost use Rattle.vx_model.specs.Answers.{Judges, line_seen, reason_seen};
ghost use Rattle.vx_model.specs.Models.{IsModel};
ghost use Rattle.vx_words.specs.Lines.{is_plain, words};
ghost use Rattle.vx_words.specs.Names.{AreOptionNames};
ghost use Rattle.vx_report_reader.specs.Lawful.{IsLawful};
ghost use Rattle.vx_check.specs.Ends.{behind_blanks};
ghost use Rattle.vx_check.specs.Expected.{AreOf, IsOf, cut_at_when, demanding, expected_of, reason_of, said_by_parts, said_of, with_front, with_said, with_text};

use crate::ends::{begin_an_end, put_words};
use std::alloc::{AllocError, Global};
use vx_list::Items;
use vx_model::{Model, ModelFault, Refusal, begins_comment, fault_at, read_model};
use vx_report::Report;
use vx_value::Name;
use vx_words::{are_plain, next_line, next_word};

/// An end that some configurations should have.
#[derive(Drop)]
pub struct Expectation {
    /// The number of its line, from 1 on.
    pub line: u64,
    /// The first words of the end, as a report spells it, at least one.
    pub end: Items<Name>,
    /// A model of the report's options with one rule, which allows just these configurations.
    pub model: Model,
}

/// No form of line.
const NO_FORM: Refusal = Refusal::Reason(1);

/// The words begin no end.
const NO_END: Refusal = Refusal::Reason(2);

/// Puts the words of a text behind others.
fn push_words(alloc: Global, found: &mut Vec<Name>, text: &[u8]) -> Result<(), AllocError>
    ensures { OnOk result (found.new.items ≡ found.old.items ++ words text.now) }
{
    let mut rest = text;
    while let Some((word, after)) = next_word(rest) {
        found.push(Name::of(alloc, word)?)?;
        rest = after;
    }
    Ok(())
}

/// Puts the words before the first `when` behind others, and gives the text behind it; none where there is no such word.
fn push_until_when<'a>(
    alloc: Global,
    end: &mut Vec<Name>,
    text: &'a [u8],
) -> Result<Option<&'a [u8]>, AllocError>
    ensures { IfOk result (λ rest. option_map (with_text end.new.items) rest ≡ option_map (with_front end.old.items) (cut_at_when (words text.now))) }
{
    let mut rest = text;
    while let Some((word, after)) = next_word(rest) {
        if word == b"when".as_slice() {
            return Ok(Some(after));
        }
        end.push(Name::of(alloc, word)?)?;
        rest = after;
    }
    Ok(None)
}

/// Puts a line `option` for each name.
fn put_options(out: &mut Vec<u8>, names: &[Name]) -> Result<(), AllocError>
    ensures { OnOk result (out.new.items ≡ out.old.items ++ flat_map (λ name. (codes "option " ++ name) ++ codes "\n") names.now) }
{
    for name in names {
        out.extend_from_slice(b"option ")?;
        out.extend_from_slice(name.bytes())?;
        out.extend_from_slice(b"\n")?;
    }
    Ok(())
}

/// The text of a model of options with these names that demands a rule of these words.
fn demand(alloc: Global, names: &[Name], rule: &[Name]) -> Result<Vec<u8>, AllocError>
    ensures { IfOk result (λ text. text.items ≡ flat_map (λ name. (codes "option " ++ name) ++ codes "\n") names.now ++ ((codes "rule" ++ behind_blanks rule.now) ++ codes "\n")) }
{
    let mut text = Vec::new(alloc);
    put_options(&mut text, names)?;
    text.extend_from_slice(b"rule")?;
    put_words(&mut text, rule)?;
    text.extend_from_slice(b"\n")?;
    Ok(text)
}

/// Why a line is refused whose rule a model can't have.
fn reason_of(fault: ModelFault) -> Refusal
    ensures { result ≡ reason_of fault }
{
    match fault {
        ModelFault::NoMemory => Refusal::NoMemory,
        ModelFault::Line { line: _, reason } => Refusal::Reason(reason),
    }
}

/// The model of options with these names that demands a rule of these words.
fn demanding(alloc: Global, names: &[Name], rule: &[Name]) -> Result<Model, Refusal>
    requires names { AreOptionNames names.now }
    requires plain { list_all is_plain (behind_blanks rule.now) ≡ true }
    ensures model { Judges result (demanding names.now rule.now) }
    ensures of { IfOk result (λ model. IsModel model × (length model.options ≡ length names.now)) }
{
    let text = demand(alloc, names, rule)?;
    match read_model(alloc, text.as_slice()) {
        Ok(model) => Ok(model),
        Err(fault) => Err(reason_of(fault)),
    }
}

/// What a line says whose first word this is.
fn said_by_parts(
    alloc: Global,
    names: &[Name],
    line: u64,
    first: &[u8],
    rest: &[u8],
) -> Result<Expectation, Refusal>
    requires names { AreOptionNames names.now }
    requires plain { list_all (list_all is_plain) (words rest.now) ≡ true }
    ensures said { AnswersBy Some reason_seen result (said_by_parts names.now line first.now (cut_at_when (words rest.now))) }
    ensures of { IfOk result (IsOf (length names.now)) }
{
    let mut end = Vec::new(alloc);
    end.push(Name::of(alloc, first)?)?;
    let Some(behind) = push_until_when(alloc, &mut end, rest)? else {
        return Err(NO_FORM);
    };
    if !begin_an_end(alloc, end.as_slice())? {
        return Err(NO_END);
    }
    let mut rule = Vec::new(alloc);
    push_words(alloc, &mut rule, behind)?;
    let model = demanding(alloc, names, rule.as_slice())?;
    Ok(Expectation {
        line,
        end: Items::of(end),
        model,
    })
}

/// What a line of this number says.
#[tactic(auto, unfolding(crate::specs::Expected::said_of))]
fn said_of(
    alloc: Global,
    names: &[Name],
    number: u64,
    line: &[u8],
) -> Result<Option<Expectation>, Refusal>
    requires names { AreOptionNames names.now }
    ensures said { Judges result (said_of names.now number line.now) }
    ensures of { IfOk result (λ said. IfSome said (IsOf (length names.now))) }
{
    let Some((first, rest)) = next_word(line) else {
        return Ok(None);
    };
    if begins_comment(first) {
        return Ok(None);
    }
    if !are_plain(line) {
        return Err(NO_FORM);
    }
    let expectation = said_by_parts(alloc, names, number, first, rest)?;
    Ok(Some(expectation))
}

/// Puts what a line says, if it says something.
fn add(expected: &mut Vec<Expectation>, said: Option<Expectation>) -> Result<(), AllocError>
    ensures { OnOk result (expected.new.items ≡ with_said expected.old.items said) }
{
    if let Some(expectation) = said {
        expected.push(expectation)?;
    }
    Ok(())
}

/// What a text expects of the configurations of options with these names.
fn expected_of(alloc: Global, names: &[Name], bytes: &[u8]) -> Result<Vec<Expectation>, ModelFault>
    requires { AreOptionNames names.now }
    ensures exact { AnswersBy (λ expected. expected.items) line_seen result (expected_of names.now bytes.now) }
    ensures of { IfOk result (λ expected. AreOf (length names.now) expected.items) }
{
    let mut expected = Vec::new(alloc);
    let mut rest = bytes;
    let mut number: u64 = 1;
    while let Some((line, after)) = next_line(rest) {
        match said_of(alloc, names, number, line) {
            Ok(said) => add(&mut expected, said)?,
            Err(refusal) => return Err(fault_at(refusal, number)),
        }
        rest = after;
        number += 1;
    }
    Ok(expected)
}

/// What a text expects of the configurations of a report, or its first bad line, from 1 on, with the least reason: 1 no form of line, 2 words that begin no end, 4 no rule or one that nests deeper than 256, 5 an unknown option. A line is `END when RULE`: END are the
/// first words of an end, as a report spells it, and RULE is one of the language of models. Empty lines and those whose first word begins with
/// `#` say nothing (own).
pub fn read_expected(
    alloc: Global,
    report: &Report,
    bytes: &[u8],
) -> Result<Vec<Expectation>, ModelFault>
    requires { IsLawful report.now }
    ensures exact { AnswersBy (λ expected. expected.items) line_seen result (expected_of report.now.options bytes.now) }
    // Each is a model that the calls take which make a set of it.
    ensures of { IfOk result (λ expected. AreOf (length report.now.options) expected.items) }
{
    expected_of(alloc, report.options.as_slice(), bytes)
}
