//! Ends, and words that stand first in them.

ghost use Rattle.std.specs.Prelude.{◌≡◌, ◌++◌, IfOk, OnErr, OnOk, codes};
ghost use Rattle.vx_words.specs.Lines.{words};
ghost use Rattle.vx_check.specs.Ends.{begin, begin_an_end, behind_blanks, is_whole, passes, rank};

use std::alloc::{AllocError, Global};
use vx_list::or_cut_back;
use vx_report_line::line_in;
use vx_value::{End, Name};
use vx_words::next_word;

/// Whether the program came to its end: it returned, or it left with the code 0.
pub fn passes(end: &End) -> bool
    ensures { result ≡ passes end.now }
{
    match end {
        End::Return | End::Exit(0) => true,
        _ => false,
    }
}

/// How bad an end is, from 0 for the worst: an exception, an exit, a broken rule, what stands outside of the language, attempts that were used
/// up, and an end to which the program came.
pub fn rank(end: &End) -> u8
    ensures { result ≡ rank end.now }
{
    match end {
        End::Uncaught(_) => 0,
        End::Exit(0) => 5,
        End::Exit(_) => 1,
        End::Illegal(_) => 2,
        End::Unsupported {
            word: _,
            what: _,
            place: _,
        } => 3,
        End::Unfinished => 4,
        End::Return => 5,
    }
}

/// Whether some words stand first among those of a text.
pub fn begin(front: &[Name], text: &[u8]) -> bool
    ensures { result ≡ begin front.now (words text.now) }
{
    let mut rest = text;
    for name in front {
        let Some((word, after)) = next_word(rest) else {
            return false;
        };
        if name.bytes() != word {
            return false;
        }
        rest = after;
    }
    true
}

/// Puts words, each behind a blank. Want of memory leaves the text as it was.
#[tactic(auto, using(std::proofs::lemmas::List::append_assoc, std::proofs::lemmas::List::take_at))]
pub fn put_words(out: &mut Vec<u8>, words: &[Name]) -> Result<(), AllocError>
    ensures ok { OnOk result (out.new.items ≡ out.old.items ++ behind_blanks words.now) }
    ensures err { OnErr result (out.new.items ≡ out.old.items) }
{
    let held = out.len();
    for word in words {
        or_cut_back(out.extend_from_slice(b" "), out, held)?;
        or_cut_back(out.extend_from_slice(word.bytes()), out, held)?;
    }
    Ok(())
}

/// Whether words are a whole end with some bytes behind them.
fn is_whole(alloc: Global, words: &[Name], missing: &[u8]) -> Result<bool, AllocError>
    ensures { IfOk result (λ whole. whole ≡ is_whole words.now missing.now) }
{
    let mut line = Vec::new(alloc);
    line.extend_from_slice(b"end 1")?;
    put_words(&mut line, words)?;
    line.extend_from_slice(missing)?;
    let found = line_in(alloc, line.as_slice())?;
    Ok(found.is_some())
}

/// Whether words are the first ones of an end, as a report spells it.
pub fn begin_an_end(alloc: Global, words: &[Name]) -> Result<bool, AllocError>
    ensures { IfOk result (λ begin. begin ≡ begin_an_end words.now) }
{
    if is_whole(alloc, words, b"")? {
        return Ok(true);
    }
    if is_whole(alloc, words, b" 0")? {
        return Ok(true);
    }
    if is_whole(alloc, words, b" -")? {
        return Ok(true);
    }
    if is_whole(alloc, words, b" - -")? {
        return Ok(true);
    }
    is_whole(alloc, words, b" float - -")
}
