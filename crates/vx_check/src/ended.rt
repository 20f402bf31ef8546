//! The ends of a report with their words and sets.

ghost use Rattle.std.specs.Prelude.{◌≡◌, IfOk, length};
ghost use Rattle.vx_report.specs.Lines.{end_words};
ghost use Rattle.vx_cover.specs.Scopes.{AreFirstEnds};
ghost use Rattle.vx_space.specs.Sets.{Sets};
ghost use Rattle.vx_check.specs.Lines.{AreEnded, ended_at};
ghost use Rattle.vx_check.specs.Ways.{endings};

use crate::ends::{passes, rank};
use std::alloc::{AllocError, Global};
use vx_report::{EndLine, Report, put_end};
use vx_value::{End, Name};

/// An end of a report.
#[derive(Drop)]
pub struct Ended<I> {
    /// Its place, from 0 on.
    pub place: u64,
    /// Its words, as a report spells them.
    pub words: Name,
    pub rank: u8,
    /// Whether the program came to its end there.
    pub passes: bool,
    /// The configurations whose end it is.
    pub set: I,
}

/// The words of an end.
fn words_of(alloc: Global, end: &End) -> Result<Name, AllocError>
    ensures { IfOk result (λ words. words ≡ end_words end.now) }
{
    let mut words = Vec::new(alloc);
    put_end(&mut words, end)?;
    Ok(Name::from_vec(words))
}

/// An end with its words.
fn with_words<I: Copy>(
    alloc: Global,
    line: &EndLine,
    place: usize,
    set: I,
) -> Result<Ended<I>, AllocError>
    ensures { IfOk result (λ e. e ≡ ended_at line.now place set) }
{
    let words = words_of(alloc, &line.end)?;
    Ok(Ended {
        place: place as u64,
        words,
        rank: rank(&line.end),
        passes: passes(&line.end),
        set,
    })
}

/// The ends of a report, with the set of each.
pub fn ended_of<I: Copy>(
    alloc: Global,
    report: &Report,
    firsts: &[I],
) -> Result<Vec<Ended<I>>, AllocError>
    requires { length firsts.now ≡ length report.now.ends }
    ensures { IfOk result (λ all. (sets : Sets I) → AreFirstEnds sets report.now firsts.now → AreEnded sets (endings report.now) all.items) }
{
    let mut all = Vec::new(alloc);
    for line in report.ends.as_slice() {
        let place = all.len();
        all.push(with_words(alloc, line, place, firsts[place])?)?;
    }
    Ok(all)
}
