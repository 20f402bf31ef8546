//! What a run has written: the longest runs of bytes of one stream.

ghost use Rattle.std.specs.Prelude.{[], IfOk, OnOk, ◌++◌, ◌≡◌};
ghost use Rattle.vx_replay.specs.Attempts.{bytes_written};
ghost use Rattle.vx_replay.specs.Replays.{AreLongest, bytes_in, put_after, put_behind, runs_in};
ghost use Rattle.vx_report.specs.Projection.{same_stream};

use crate::attempting::Written;
use std::alloc::AllocError;
use vx_list::GivenUp;
use vx_value::{Name, Stream};

/// A longest run of output on one stream.
#[derive(Drop)]
pub struct PlainPiece {
    pub stream: Stream,
    pub text: Name,
}

/// A piece with bytes behind its own.
fn joined(piece: PlainPiece, bytes: &[u8]) -> Result<PlainPiece, AllocError>
    ensures { IfOk result (λ r. r ≡ record { stream = piece.stream; text = piece.text ++ bytes.now }) }
{
    let mut text = piece.text.into_vec();
    text.extend_from_slice(bytes)?;
    Ok(PlainPiece {
        stream: piece.stream,
        text: Name::from_vec(text),
    })
}

/// Whether a piece is of a stream.
fn is_of(piece: &PlainPiece, stream: Stream) -> bool
    ensures { result ≡ same_stream piece.now.stream stream }
{
    match (piece.stream, stream) {
        (Stream::Out, Stream::Out) => true,
        (Stream::Err, Stream::Err) => true,
        (Stream::Out, Stream::Err) => false,
        (Stream::Err, Stream::Out) => false,
    }
}

/// Puts a piece behind the others, of which the last one was taken off: the next one continues it where both are of one stream.
#[tactic(auto, using(crate::proofs::Behind::one_put, crate::proofs::Behind::two_put))]
fn put_both(pieces: &mut Vec<PlainPiece>, last: PlainPiece, next: PlainPiece) -> Result<(), GivenUp>
    ensures { OnOk result (runs_in pieces.new.items ≡ runs_in pieces.old.items ++ put_after next.stream next.text (last.stream, last.text) []) }
{
    if is_of(&last, next.stream) {
        let whole = joined(last, next.text.bytes())?;
        pieces.push(whole)?;
        return Ok(());
    }
    pieces.push(last)?;
    pieces.push(next)?;
    Ok(())
}

/// Puts a piece behind the others: it continues the last one, where that is of the same stream.
#[tactic(auto, using(crate::proofs::Behind::behind_last, crate::proofs::Behind::behind_none))]
fn put_piece(pieces: &mut Vec<PlainPiece>, next: PlainPiece) -> Result<(), GivenUp>
    ensures { OnOk result (runs_in pieces.new.items ≡ put_behind next.stream next.text (runs_in pieces.old.items)) }
{
    match pieces.pop() {
        Some(last) => put_both(pieces, last, next),
        None => {
            pieces.push(next)?;
            Ok(())
        }
    }
}

/// Puts what was written behind the others.
#[tactic(auto, using(crate::proofs::Behind::longest_put, crate::proofs::Behind::none_put))]
pub(crate) fn put(pieces: &mut Vec<PlainPiece>, written: Option<Written>) -> Result<(), GivenUp>
    requires { AreLongest pieces.old.items }
    ensures longest { OnOk result (AreLongest pieces.new.items) }
    ensures bytes { OnOk result (bytes_in pieces.new.items ≡ bytes_in pieces.old.items ++ bytes_written written) }
{
    match written {
        Some(written) => {
            if written.bytes.is_empty() {
                return Ok(());
            }
            let piece = PlainPiece {
                stream: written.stream,
                text: Name::from_vec(written.bytes),
            };
            put_piece(pieces, piece)
        }
        None => Ok(()),
    }
}
