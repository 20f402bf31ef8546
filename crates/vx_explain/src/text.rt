//! The text of explanations.

ghost use Rattle.std.specs.Prelude.{◌≡◌, ◌++◌, ◌≤◌, ◌<◌, ◌^◌, IfOk, OnErr, OnOk, length, option_copied};
ghost use Rattle.vx_explain.specs.Text.{all_text, denial_text, denials_text, example_text, explained_text, explanation_text, goes_on, literal_text, mark, rule_text, spelled_rule, term_text, told_behind, told_text, when_text};

use crate::explained::{Explained, Explanation, Told};
use crate::literal::{Literal, Term};
use crate::rule::{Rule, only_literal, opposite};
use std::alloc::{AllocError, Global};
use vx_cover::put_configuration;
use vx_list::or_cut_back;
use vx_report::{Report, name_of};
use vx_space::Config;
use vx_value::Name;
use vx_words::put_number;

fn mark(on: bool) -> &'static [u8]
    ensures { result.now ≡ mark on }
{
    if on { b"" } else { b"!" }
}

/// Puts a literal: the name of its option, behind a `!` where it is to be off. Want of memory leaves the text as it was.
#[tactic(auto, using(std::proofs::lemmas::List::append_assoc, std::proofs::lemmas::List::take_at))]
fn put_literal(out: &mut Vec<u8>, names: &[Name], literal: &Literal) -> Result<(), AllocError>
    ensures ok { OnOk result (out.new.items ≡ out.old.items ++ literal_text names.now literal.now) }
    ensures err { OnErr result (out.new.items ≡ out.old.items) }
{
    let held = out.len();
    out.extend_from_slice(mark(literal.on))?;
    let name = name_of(names, literal.option);
    or_cut_back(out.extend_from_slice(name), out, held)
}

/// Puts a term: its literals, with `&` between them, or `true` for none. Want of memory leaves the text as it was.
#[tactic(auto, unfolding(crate::specs::Text::term_text), using(std::proofs::lemmas::List::append_assoc, std::proofs::lemmas::List::take_at))]
fn put_term(out: &mut Vec<u8>, names: &[Name], term: &[Literal]) -> Result<(), AllocError>
    ensures ok { OnOk result (out.new.items ≡ out.old.items ++ term_text names.now term.now) }
    ensures err { OnErr result (out.new.items ≡ out.old.items) }
{
    let Some((first, rest)) = term.split_first() else {
        return out.extend_from_slice(b"true");
    };
    let held = out.len();
    put_literal(out, names, first)?;
    for literal in rest {
        or_cut_back(out.extend_from_slice(b" & "), out, held)?;
        or_cut_back(put_literal(out, names, literal), out, held)?;
    }
    Ok(())
}

/// Puts that a term holds: the terms, with `|` between them, or `false` for none. Want of memory leaves the text as it was.
#[tactic(auto, unfolding(crate::specs::Text::rule_text), using(std::proofs::lemmas::List::append_assoc, std::proofs::lemmas::List::take_at))]
fn put_terms(out: &mut Vec<u8>, names: &[Name], terms: &[Term]) -> Result<(), AllocError>
    ensures ok { OnOk result (out.new.items ≡ out.old.items ++ rule_text names.now terms.now) }
    ensures err { OnErr result (out.new.items ≡ out.old.items) }
{
    let Some((first, rest)) = terms.split_first() else {
        return out.extend_from_slice(b"false");
    };
    let held = out.len();
    put_term(out, names, first.as_slice())?;
    for term in rest {
        or_cut_back(out.extend_from_slice(b" | "), out, held)?;
        or_cut_back(put_term(out, names, term.as_slice()), out, held)?;
    }
    Ok(())
}

/// Puts that a term doesn't hold: of one literal, that its opposite does. Want of memory leaves the text as it was.
#[tactic(auto, using(std::proofs::lemmas::List::append_assoc, std::proofs::lemmas::List::take_at))]
fn put_denial(out: &mut Vec<u8>, names: &[Name], term: &[Literal]) -> Result<(), AllocError>
    ensures ok { OnOk result (out.new.items ≡ out.old.items ++ denial_text names.now term.now) }
    ensures err { OnErr result (out.new.items ≡ out.old.items) }
{
    if let Some(literal) = only_literal(term) {
        return put_literal(out, names, &opposite(literal));
    }
    let held = out.len();
    out.extend_from_slice(b"!(")?;
    or_cut_back(put_term(out, names, term), out, held)?;
    or_cut_back(out.extend_from_slice(b")"), out, held)
}

/// Puts that no term holds: for each that it doesn't, with `&` between them, or `true` where there is none. Want of memory leaves the text
/// as it was.
#[tactic(auto, unfolding(crate::specs::Text::denials_text), using(std::proofs::lemmas::List::append_assoc, std::proofs::lemmas::List::take_at))]
fn put_denials(out: &mut Vec<u8>, names: &[Name], terms: &[Term]) -> Result<(), AllocError>
    ensures ok { OnOk result (out.new.items ≡ out.old.items ++ denials_text names.now terms.now) }
    ensures err { OnErr result (out.new.items ≡ out.old.items) }
{
    let Some((first, rest)) = terms.split_first() else {
        return out.extend_from_slice(b"true");
    };
    let held = out.len();
    put_denial(out, names, first.as_slice())?;
    for term in rest {
        or_cut_back(out.extend_from_slice(b" & "), out, held)?;
        or_cut_back(put_denial(out, names, term.as_slice()), out, held)?;
    }
    Ok(())
}

/// Puts a rule, as the language of models has it. Want of memory leaves the text as it was.
pub fn put_rule(out: &mut Vec<u8>, names: &[Name], rule: &Rule) -> Result<(), AllocError>
    ensures ok { OnOk result (out.new.items ≡ out.old.items ++ spelled_rule names.now rule.now) }
    ensures err { OnErr result (out.new.items ≡ out.old.items) }
{
    match rule {
        Rule::AnyOf(terms) => put_terms(out, names, terms.as_slice()),
        Rule::NoneOf(terms) => put_denials(out, names, terms.as_slice()),
    }
}

/// Puts the rule, or the node where there is no short one.
fn put_when(
    out: &mut Vec<u8>,
    names: &[Name],
    node: u64,
    rule: &Option<Rule>,
) -> Result<(), AllocError>
    ensures { OnOk result (out.new.items ≡ out.old.items ++ when_text names.now node rule.now) }
{
    match rule {
        Some(rule) => put_rule(out, names, rule),
        None => {
            out.extend_from_slice(b"node ")?;
            put_number(out, node)
        }
    }
}

/// Puts the line of an example, where there is one.
fn put_example(
    alloc: Global,
    out: &mut Vec<u8>,
    names: &[Name],
    example: &Option<Config>,
) -> Result<(), AllocError>
    requires { length names.now < 2 ^ 32 }
    ensures { OnOk result (out.new.items ≡ out.old.items ++ example_text names.now example.now) }
{
    let Some(c) = example else {
        return Ok(());
    };
    out.extend_from_slice(b"example ")?;
    put_configuration(alloc, out, names, c)?;
    out.extend_from_slice(b"\n")
}

/// Puts what is told of a node.
#[tactic(auto, unfolding(crate::specs::Text::told_text))]
fn put_told(
    alloc: Global,
    out: &mut Vec<u8>,
    names: &[Name],
    node: u64,
    told: Option<&Told>,
) -> Result<(), AllocError>
    requires { length names.now < 2 ^ 32 }
    ensures { OnOk result (out.new.items ≡ out.old.items ++ told_text names.now node (option_copied told.entry)) }
{
    let Some(told) = told else {
        return Ok(());
    };
    out.extend_from_slice(b"when ")?;
    put_when(out, names, node, &told.rule)?;
    out.extend_from_slice(b"\n")?;
    put_example(alloc, out, names, &told.example)
}

/// Whether a piece is followed by one under the same node.
#[tactic(auto, unfolding(crate::specs::Text::goes_on))]
fn goes_on(explained: &Explained, later: &[Explained]) -> bool
    ensures { result ≡ goes_on explained.now later.now }
{
    let Some((next, _)) = later.split_first() else {
        return false;
    };
    explained.subject.piece && next.subject.piece && explained.subject.node == next.subject.node
}

/// What is told behind the title of a piece or an end: nothing where another one under the same node follows.
#[tactic(auto, unfolding(crate::specs::Text::told_behind))]
fn told_behind(told: &[Told], follows: bool, place: usize) -> Option<&Told>
    ensures { option_copied result ≡ told_behind told.now follows place }
{
    if follows {
        return None;
    }
    told.get(place)
}

/// Puts the title of a piece or an end, and what is told of it behind the last of those that follow one another under one node.
fn put_explained(
    alloc: Global,
    out: &mut Vec<u8>,
    names: &[Name],
    told: &[Told],
    explained: &Explained,
    later: &[Explained],
) -> Result<(), AllocError>
    requires { length names.now < 2 ^ 32 }
    ensures { OnOk result (out.new.items ≡ out.old.items ++ explained_text names.now told.now explained.now later.now) }
{
    out.extend_from_slice(explained.subject.title.bytes())?;
    out.extend_from_slice(b"\n")?;
    put_told(
        alloc,
        out,
        names,
        explained.subject.node,
        told_behind(told, goes_on(explained, later), explained.place),
    )
}

/// Puts the lines of pieces and ends.
fn put_all(
    alloc: Global,
    out: &mut Vec<u8>,
    names: &[Name],
    told: &[Told],
    all: &[Explained],
) -> Result<(), AllocError>
    requires { length names.now < 2 ^ 32 }
    ensures { OnOk result (out.new.items ≡ out.old.items ++ all_text names.now told.now all.now) }
{
    let mut rest = all;
    while let Some((explained, later)) = rest.split_first() {
        put_explained(alloc, out, names, told, explained, later)?;
        rest = later;
    }
    Ok(())
}

/// The text of a report's explanations: `varexj explain 2`, then for each end and each piece its title; behind pieces that follow one
/// another under one node, and behind each end, a line `when` with the rule in the language of models, or with `node` and the node where
/// there is no short rule, and a line `example` with the names of the options that are on, where there is one; and at last `done`.
#[tactic(auto, unfolding(crate::specs::Text::explanation_text))]
pub fn explanation_text(
    alloc: Global,
    report: &Report,
    explanation: &Explanation,
) -> Result<Vec<u8>, AllocError>
    requires { length report.now.options ≤ 64 }
    ensures { IfOk result (λ text. text.items ≡ explanation_text report.now.options explanation.now) }
{
    let mut out = Vec::new(alloc);
    out.extend_from_slice(b"varexj explain 2\n")?;
    put_all(
        alloc,
        &mut out,
        report.options.as_slice(),
        explanation.told.as_slice(),
        explanation.explained.as_slice(),
    )?;
    out.extend_from_slice(b"done\n")?;
    Ok(out)
}
