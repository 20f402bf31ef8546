//! The lines of a source, each with its number from 1 on.

ghost use Rattle.std.specs.Prelude.{◌≡◌, ◌∷◌, ◌++◌, [], IfOk, OnOk, if◌then◌else◌};
ghost use Rattle.vx_source_words.specs.Reading.{Gives};
ghost use Rattle.vx_source.specs.Lines.{is_skipped, first_word_of, ends_body, statement_in, said_of, line_of, source_of};

use crate::operands::is_text;
use crate::saying::{is_part, statement_of};
use crate::statement::Statement;
use std::alloc::{AllocError, Global};
use vx_list::Items;
use vx_source_words::{LineFault, blank_place, byte_at, front, tokens, unindented};
use vx_words::next_line;

/// What a line says, or the least reason for which it is refused.
#[derive(Debug, Drop)]
pub enum Said {
    Refused(u8),
    Statement(Statement),
}

/// A line that is neither empty nor a comment. `ends_body` says that its first word ends a body: it is `end`, or begins
/// another part.
#[derive(Debug, Drop)]
pub struct SourceLine {
    pub number: u64,
    pub ends_body: bool,
    pub said: Said,
}

/// The lines that say something, and the number of all lines.
#[derive(Debug, Drop)]
pub struct Source {
    pub lines: Items<SourceLine>,
    pub count: u64,
}

fn is_skipped(line: &[u8]) -> bool
    ensures { result ≡ is_skipped line.now }
{
    let text = unindented(line);
    text.is_empty() || byte_at(text, 0) == b'#'
}

fn first_word_of(line: &[u8]) -> &[u8]
    ensures { result.now ≡ first_word_of line.now }
{
    let text = unindented(line);
    front(text, blank_place(text))
}

fn ends_body(word: &[u8]) -> bool
    ensures { result ≡ ends_body word.now }
{
    is_part(word) || is_text(word, b"end")
}

fn statement(alloc: Global, line: &[u8]) -> Result<Statement, LineFault>
    ensures { Gives result (statement_in line.now) }
{
    let words = tokens(alloc, line)?;
    statement_of(alloc, &words)
}

fn said_by(alloc: Global, line: &[u8]) -> Result<Said, AllocError>
    ensures { IfOk result (λ said. said ≡ said_of (statement_in line.now)) }
{
    match statement(alloc, line) {
        Ok(statement) => Ok(Said::Statement(statement)),
        Err(LineFault::Refused(reason)) => Ok(Said::Refused(reason)),
        Err(LineFault::NoMemory) => Err(AllocError),
    }
}

#[tactic(auto, unfolding(crate::specs::Lines::line_of))]
fn line_of(alloc: Global, line: &[u8], number: u64) -> Result<SourceLine, AllocError>
    ensures { IfOk result (λ l. l ≡ line_of line.now number) }
{
    Ok(SourceLine {
        number,
        ends_body: ends_body(first_word_of(line)),
        said: said_by(alloc, line)?,
    })
}

/// A line behind those that are there, unless it says nothing.
fn put_line(
    alloc: Global,
    lines: &mut Vec<SourceLine>,
    line: &[u8],
    number: u64,
) -> Result<(), AllocError>
    ensures { OnOk result (lines.new.items ≡ lines.old.items ++ (if is_skipped line.now then [] else line_of line.now number ∷ [])) }
{
    if !is_skipped(line) {
        lines.push(line_of(alloc, line, number)?)?;
    }
    Ok(())
}

/// The lines of a source.
pub fn read_source(alloc: Global, bytes: &[u8]) -> Result<Source, AllocError>
    ensures { IfOk result (λ source. source ≡ source_of bytes.now) }
{
    let mut lines = Vec::new(alloc);
    let mut rest = bytes;
    let mut count = 0;
    while let Some((line, behind)) = next_line(rest) {
        count += 1;
        put_line(alloc, &mut lines, line, count)?;
        rest = behind;
    }
    Ok(Source {
        lines: Items::of(lines),
        count,
    })
}
