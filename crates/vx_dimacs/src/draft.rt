//! What the lines of a DIMACS text have said so far.

ghost use Rattle.std.specs.Prelude.{◌≡◌, ◌<◌, ◌+◌, Some, None, IfErr, OnOk, ◌==◌, not};
ghost use Rattle.std.specs.List.{list_any};
ghost use Rattle.vx_words.specs.Lines.{words};
ghost use Rattle.vx_model.specs.Answers.{Judges};
ghost use Rattle.vx_model.specs.declared.statement.Refusal.TheVariants.{NoMemory};
ghost use Rattle.vx_dimacs.specs.Draft.{MarksAre, Moves, drafted};
ghost use Rattle.vx_dimacs.specs.Dimacs.{named_as, named, comment_line, line_of, with_mark, with_marks, begun, has_too_many, with_line, up_to, numbers_line, marks_of, is_number, is_nothing, nothing_yet};

use crate::line::{
    Header, Line, NO_HEADER, Naming, are_visible, header_line, is_named, is_variable_name,
};
use crate::number::{Mark, TOO_MANY, is_number, mark_of, up_to};
use std::alloc::{AllocError, Global};
use std::mem;
use vx_list::Items;
use vx_model::{Expr, FieldPlace, Model, OptionField, Refusal, is_taken, slashed};
use vx_value::Name;
use vx_words::next_word;

/// A word that is no number of a clause.
const NO_NUMBER: Refusal = Refusal::Reason(8);

/// A variable, name or field that is named twice.
const TAKEN: Refusal = Refusal::Reason(3);

/// More clauses than the header says, or fewer.
const CLAUSES: Refusal = Refusal::Reason(9);

/// What the lines so far said: the header, the named variables and their names in order, the clauses, and the literals of
/// a clause that is not ended.
#[derive(Drop)]
pub struct Draft {
    pub header: Option<Header>,
    pub variables: Vec<u32>,
    pub names: Vec<OptionField>,
    pub rules: Vec<Expr>,
    pub literals: Vec<Expr>,
}

// Whether one of the words is a number.
fn has_number(text: &[u8]) -> bool
    ensures { result ≡ list_any is_number (words text.now) }
{
    let mut rest = text;
    while let Some((word, after)) = next_word(rest) {
        if is_number(word) {
            return true;
        }
        rest = after;
    }
    false
}

// The numbers that the words are.
fn marks_of(alloc: Global, variables: u32, text: &[u8]) -> Result<Vec<Mark>, Refusal>
    ensures { MarksAre result (marks_of variables (words text.now)) }
{
    let mut marks = Vec::new(alloc);
    let mut rest = text;
    while let Some((word, after)) = next_word(rest) {
        let Some(mark) = mark_of(variables, word) else {
            return Err(NO_NUMBER);
        };
        marks.push(mark)?;
        rest = after;
    }
    Ok(marks)
}

// A line of numbers.
#[tactic(auto, unfolding(crate::specs::Dimacs::numbers_line))]
fn numbers_line(alloc: Global, header: Option<Header>, text: &[u8]) -> Result<Line, Refusal>
    ensures { Judges result (numbers_line header (words text.now)) }
{
    let Some(header) = header else {
        if has_number(text) {
            return Err(NO_HEADER);
        }
        return Err(NO_NUMBER);
    };
    let marks = marks_of(alloc, header.variables, text)?;
    Ok(Line::Numbers(Items::of(marks)))
}

// What a comment names a variable, which has this number and this name.
fn named_as(
    alloc: Global,
    draft: &Draft,
    variable: u32,
    name: &[u8],
    place: Option<FieldPlace>,
) -> Result<Line, Refusal>
    ensures { Judges result (named_as (drafted draft.now) variable name.now place) }
{
    if is_named(draft.variables.as_slice(), variable)
        || is_taken(draft.names.as_slice(), name, &place)
    {
        return Err(TAKEN);
    }
    let name = Name::of(alloc, name)?;
    Ok(Line::Names(Naming {
        variable,
        option: OptionField { name, place },
    }))
}

// What a comment of a number and a name says, where there are at most so many variables.
fn named(
    alloc: Global,
    most: u32,
    draft: &Draft,
    number: &[u8],
    name: &[u8],
    place: Option<FieldPlace>,
) -> Result<Line, Refusal>
    ensures { Judges result (named most (drafted draft.now) (up_to 65 number.now) number.now name.now place) }
{
    let Some(variable) = up_to(TOO_MANY, number) else {
        return Ok(Line::Nothing);
    };
    if (1 <= variable && variable <= 64) && (variable <= most && is_variable_name(number, name)) {
        return named_as(alloc, draft, variable, name, place);
    }
    Ok(Line::Nothing)
}

// What a comment says, by what stands behind its first word.
#[tactic(auto, unfolding(crate::specs::Dimacs::comment_line))]
fn comment_line(alloc: Global, most: u32, draft: &Draft, text: &[u8]) -> Result<Line, Refusal>
    ensures { Judges result (comment_line most (drafted draft.now) (words text.now)) }
{
    let Some((number, rest)) = next_word(text) else {
        return Ok(Line::Nothing);
    };
    let Some((name, rest)) = next_word(rest) else {
        return Ok(Line::Nothing);
    };
    let Some((class, rest)) = next_word(rest) else {
        return named(alloc, most, draft, number, name, None);
    };
    let Some((field, rest)) = next_word(rest) else {
        return Ok(Line::Nothing);
    };
    if next_word(rest).is_some() || !(are_visible(class) && are_visible(field)) {
        return Ok(Line::Nothing);
    }
    let class = slashed(alloc, class)?;
    let field = Name::of(alloc, field)?;
    named(
        alloc,
        most,
        draft,
        number,
        name,
        Some(FieldPlace { class, field }),
    )
}

const COMMENT: &[u8] = b"c";

const HEADER: &[u8] = b"p";

/// What a line says, where there are at most so many variables.
#[tactic(auto, unfolding(crate::specs::Dimacs::line_of))]
pub fn line_of(alloc: Global, most: u32, draft: &Draft, text: &[u8]) -> Result<Line, Refusal>
    ensures { Judges result (line_of most (drafted draft.now) text.now) }
{
    let Some((first, rest)) = next_word(text) else {
        return Ok(Line::Nothing);
    };
    if first == COMMENT {
        return comment_line(alloc, most, draft, rest);
    }
    if first == HEADER {
        return header_line(draft.header, rest);
    }
    numbers_line(alloc, draft.header, text)
}

fn has_too_many(header: Option<Header>, clauses: usize) -> bool
    ensures { result ≡ has_too_many header clauses }
{
    match header {
        None => false,
        Some(header) => (header.clauses as usize) < clauses,
    }
}

fn has_any(literals: &[Expr]) -> bool
    ensures { result ≡ not (is_nothing literals.now) }
{
    !literals.is_empty()
}

impl Draft {
    /// No line so far.
    pub fn new(alloc: Global) -> Draft
        ensures { drafted result ≡ nothing_yet }
    {
        Draft {
            header: None,
            variables: Vec::new(alloc),
            names: Vec::new(alloc),
            rules: Vec::new(alloc),
            literals: Vec::new(alloc),
        }
    }

    fn add_mark(&mut self, alloc: Global, mark: Mark) -> Result<(), Refusal>
        ensures value { OnOk result (drafted self.new ≡ with_mark (drafted self.old) mark) }
        ensures memory { IfErr result (λ e. e ≡ NoMemory) }
    {
        match mark {
            Mark::End => {
                let literals = mem::replace(&mut self.literals, Vec::new(alloc));
                self.rules.push(Expr::any_of(literals))?;
            }
            Mark::On(option) => self.literals.push(Expr::named(option))?,
            Mark::Off(option) => {
                let rule = Expr::negated(alloc, Expr::named(option))?;
                self.literals.push(rule)?;
            }
        }
        Ok(())
    }

    fn add_marks(&mut self, alloc: Global, marks: &[Mark]) -> Result<(), Refusal>
        ensures value { OnOk result (drafted self.new ≡ with_marks (drafted self.old) marks.now) }
        ensures memory { IfErr result (λ e. e ≡ NoMemory) }
    {
        for mark in marks {
            self.add_mark(alloc, *mark)?;
        }
        Ok(())
    }

    fn begun(&self) -> usize
        ensures { result ≡ begun (drafted self.now) }
    {
        self.rules.len()
            + if has_any(self.literals.as_slice()) {
                1
            } else {
                0
            }
    }

    /// One more line.
    pub fn add(&mut self, alloc: Global, line: Line) -> Result<(), Refusal>
        ensures { Moves result (drafted self.new) (with_line (drafted self.old) line) }
    {
        match line {
            Line::Nothing => {}
            Line::Names(Naming { variable, option }) => {
                self.variables.push(variable)?;
                self.names.push(option)?;
            }
            Line::Heads(header) => self.header = Some(header),
            Line::Numbers(marks) => {
                self.add_marks(alloc, marks.as_slice())?;
                if has_too_many(self.header, self.begun()) {
                    return Err(CLAUSES);
                }
            }
        }
        Ok(())
    }
}
