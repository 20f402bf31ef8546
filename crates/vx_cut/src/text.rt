//! The text of a part of a model.

ghost use Rattle.std.specs.Prelude.{◌≡◌, ◌++◌, [], OnErr, OnOk, codes};
ghost use Rattle.std.specs.List.{flat_map};
ghost use Rattle.vx_list.specs.Places.{item_or};
ghost use Rattle.vx_model.specs.Models.{names_of};
ghost use Rattle.vx_explain.specs.Text.{literal_text, mark, term_text};
ghost use Rattle.vx_cut.specs.Texts.{clause_text, comment_mark, demand, heading, part_text, sign};

use crate::lines::put_lines;
use std::alloc::AllocError;
use vx_explain::Literal;
use vx_list::or_cut_back;
use vx_model::Model;
use vx_words::put_number;

/// The name of an option of a model; one that isn't there has none.
fn name_of(model: &Model, option: u32) -> &[u8]
    ensures { result.now ≡ item_or (names_of model.now) option [] }
{
    match model.options.get(option as usize) {
        Some(option) => option.name.bytes(),
        None => &[],
    }
}

fn mark(on: bool) -> &'static [u8]
    ensures { result.now ≡ mark on }
{
    if on { b"" } else { b"!" }
}

/// Puts a literal: the name of its option, behind a `!` where it is to be off. Want of memory leaves the text as it was.
#[tactic(auto, using(std::proofs::lemmas::List::append_assoc, std::proofs::lemmas::List::take_at))]
fn put_literal(out: &mut Vec<u8>, model: &Model, literal: &Literal) -> Result<(), AllocError>
    ensures ok { OnOk result (out.new.items ≡ out.old.items ++ literal_text (names_of model.now) literal.now) }
    ensures err { OnErr result (out.new.items ≡ out.old.items) }
{
    let held = out.len();
    out.extend_from_slice(mark(literal.on))?;
    let name = name_of(model, literal.option);
    or_cut_back(out.extend_from_slice(name), out, held)
}

/// Puts a term: its literals, with `&` between them, or `true` for none. Want of memory leaves the text as it was.
#[tactic(auto, unfolding(vx_explain::specs::Text::term_text), using(std::proofs::lemmas::List::append_assoc, std::proofs::lemmas::List::take_at))]
fn put_term(out: &mut Vec<u8>, model: &Model, term: &[Literal]) -> Result<(), AllocError>
    ensures ok { OnOk result (out.new.items ≡ out.old.items ++ term_text (names_of model.now) term.now) }
    ensures err { OnErr result (out.new.items ≡ out.old.items) }
{
    let Some((first, rest)) = term.split_first() else {
        return out.extend_from_slice(b"true");
    };
    let held = out.len();
    put_literal(out, model, first)?;
    for literal in rest {
        or_cut_back(out.extend_from_slice(b" & "), out, held)?;
        or_cut_back(put_literal(out, model, literal), out, held)?;
    }
    Ok(())
}

fn comment_mark(dimacs: bool) -> &'static [u8]
    ensures { result.now ≡ comment_mark dimacs }
{
    if dimacs { b"c" } else { b"#" }
}

/// Puts the line of comment before a part. Want of memory leaves the text as it was.
#[tactic(auto, unfolding(crate::specs::Texts::heading), using(std::proofs::lemmas::List::append_assoc, std::proofs::lemmas::List::take_at))]
fn put_heading(
    out: &mut Vec<u8>,
    dimacs: bool,
    model: &Model,
    number: usize,
    term: &[Literal],
) -> Result<(), AllocError>
    ensures ok { OnOk result (out.new.items ≡ out.old.items ++ heading dimacs model.now number term.now) }
    ensures err { OnErr result (out.new.items ≡ out.old.items) }
{
    let held = out.len();
    out.extend_from_slice(comment_mark(dimacs))?;
    or_cut_back(out.extend_from_slice(b" part "), out, held)?;
    or_cut_back(put_number(out, number), out, held)?;
    or_cut_back(out.extend_from_slice(b" "), out, held)?;
    or_cut_back(put_term(out, model, term), out, held)?;
    or_cut_back(out.extend_from_slice(b"\n"), out, held)
}

fn sign(on: bool) -> &'static [u8]
    ensures { result.now ≡ sign on }
{
    if on { b"" } else { b"-" }
}

/// Puts a clause of one literal; variables are counted from 1. Want of memory leaves the text as it was.
#[tactic(auto, using(std::proofs::lemmas::List::append_assoc, std::proofs::lemmas::List::take_at))]
fn put_clause(out: &mut Vec<u8>, literal: &Literal) -> Result<(), AllocError>
    ensures ok { OnOk result (out.new.items ≡ out.old.items ++ clause_text literal.now) }
    ensures err { OnErr result (out.new.items ≡ out.old.items) }
{
    let held = out.len();
    out.extend_from_slice(sign(literal.on))?;
    or_cut_back(put_number(out, u64::from(literal.option) + 1), out, held)?;
    or_cut_back(out.extend_from_slice(b" 0"), out, held)?;
    or_cut_back(out.extend_from_slice(b"\n"), out, held)
}

/// Puts a clause for each literal. Want of memory leaves the text as it was.
#[tactic(auto, using(std::proofs::lemmas::List::append_assoc, std::proofs::lemmas::List::take_at))]
fn put_clauses(out: &mut Vec<u8>, term: &[Literal]) -> Result<(), AllocError>
    ensures ok { OnOk result (out.new.items ≡ out.old.items ++ flat_map clause_text term.now) }
    ensures err { OnErr result (out.new.items ≡ out.old.items) }
{
    let held = out.len();
    for literal in term {
        or_cut_back(put_clause(out, literal), out, held)?;
    }
    Ok(())
}

/// Puts the rule that a term is to hold. Want of memory leaves the text as it was.
#[tactic(auto, using(std::proofs::lemmas::List::append_assoc, std::proofs::lemmas::List::take_at))]
fn put_rule(out: &mut Vec<u8>, model: &Model, term: &[Literal]) -> Result<(), AllocError>
    ensures ok { OnOk result (out.new.items ≡ out.old.items ++ (codes "rule " ++ term_text (names_of model.now) term.now ++ codes "\n")) }
    ensures err { OnErr result (out.new.items ≡ out.old.items) }
{
    let held = out.len();
    out.extend_from_slice(b"rule ")?;
    or_cut_back(put_term(out, model, term), out, held)?;
    or_cut_back(out.extend_from_slice(b"\n"), out, held)
}

/// Puts what demands a term. Want of memory leaves the text as it was.
#[tactic(auto, unfolding(crate::specs::Texts::demand))]
fn put_demand(
    out: &mut Vec<u8>,
    dimacs: bool,
    model: &Model,
    term: &[Literal],
) -> Result<(), AllocError>
    ensures ok { OnOk result (out.new.items ≡ out.old.items ++ demand dimacs model.now term.now) }
    ensures err { OnErr result (out.new.items ≡ out.old.items) }
{
    if dimacs {
        put_clauses(out, term)
    } else {
        put_rule(out, model, term)
    }
}

/// Puts the part of a term: a line of comment with its number and the term, the model's text, and what demands the term.
/// Want of memory leaves the text as it was.
#[tactic(auto, using(std::proofs::lemmas::List::append_assoc, std::proofs::lemmas::List::take_at))]
pub fn put_part(
    out: &mut Vec<u8>,
    dimacs: bool,
    text: &[u8],
    model: &Model,
    number: usize,
    term: &[Literal],
) -> Result<(), AllocError>
    ensures ok { OnOk result (out.new.items ≡ out.old.items ++ part_text dimacs text.now model.now number term.now) }
    ensures err { OnErr result (out.new.items ≡ out.old.items) }
{
    let held = out.len();
    put_heading(out, dimacs, model, number, term)?;
    or_cut_back(put_lines(out, dimacs, model, term.len(), text), out, held)?;
    or_cut_back(put_demand(out, dimacs, model, term), out, held)
}
