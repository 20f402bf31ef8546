//! Lines that tell how far runs have come.

ghost use Rattle.std.specs.Prelude.{◌≡◌, ◌++◌, IfOk, OnErr, OnOk, decimal};
ghost use Rattle.vx_space.specs.Sets.{AreKnown};
ghost use Rattle.vx_standing.specs.State.{shared_ids};
ghost use Rattle.vx_watch.specs.Progress.{progress_of};
ghost use Rattle.vx_watch.specs.Telling.{HasHeard, progress_line};

use crate::progress::{Progress, progress_of};
use std::alloc::{AllocError, Global};
use vx_io::{Sink, put_all};
use vx_list::or_cut_back;
use vx_space::Space;
use vx_standing::State;
use vx_words::put_number;

/// Appends a word with blanks around it, and a number. Want of memory leaves the text as it was.
#[tactic(auto, using(std::proofs::lemmas::List::append_assoc, std::proofs::lemmas::List::take_at))]
fn put_counted(out: &mut Vec<u8>, word: &[u8], number: u128) -> Result<(), AllocError>
    ensures ok { OnOk result (out.new.items ≡ out.old.items ++ (word.now ++ decimal number)) }
    ensures err { OnErr result (out.new.items ≡ out.old.items) }
{
    let held = out.len();
    out.extend_from_slice(word)?;
    or_cut_back(put_number(out, number), out, held)
}

/// The line that tells how far runs have come.
fn line_of(alloc: Global, progress: Progress) -> Result<Vec<u8>, AllocError>
    ensures { IfOk result (λ line. line.items ≡ progress_line progress) }
{
    let mut out = Vec::new(alloc);
    put_counted(&mut out, b"rounds ", progress.rounds)?;
    put_counted(&mut out, b" groups ", u128::from(progress.groups))?;
    put_counted(&mut out, b" ended ", progress.ended)?;
    put_counted(&mut out, b" of ", progress.of)?;
    put_counted(&mut out, b" attempts ", u128::from(progress.attempts))?;
    put_counted(&mut out, b" nodes ", u128::from(progress.sets))?;
    out.extend_from_slice(b"\n")?;
    Ok(out)
}

/// Writes a line that tells how far the runs of a state have come, of so many configurations. Where it can't be written the runs go
/// on all the same. Want of memory writes nothing.
pub fn tell<S: Space, E: Sink>(
    alloc: Global,
    space: &S,
    state: &State<S>,
    of: u128,
    err: &mut E,
) -> Result<(), AllocError>
    requires { AreKnown (S.sets space.now) (shared_ids state.now.ends) }
    ensures ok { OnOk result (HasHeard (E.seen err.old) (E.seen err.new) (progress_line (progress_of (S.sets space.now) of state.now))) }
    ensures err { OnErr result (E.seen err.new ≡ E.seen err.old) }
{
    let progress = progress_of(alloc, space, state, of)?;
    let line = line_of(alloc, progress)?;
    let _ = put_all(err, line.as_slice());
    Ok(())
}
