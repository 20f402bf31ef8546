//! The line of a status, put on a sink piece by piece. It takes no memory.

ghost use Rattle.std.specs.Prelude.{◌≡◌, ◌++◌};
ghost use Rattle.std.specs.List.{flat_map};
ghost use Rattle.vx_io.specs.Sink.{IsPut};
ghost use Rattle.vx_value.specs.Words.{spelled_byte, word_of};
ghost use Rattle.vx_plans.specs.Line.{line_of, link_text, piece_bytes};

use crate::status::Status;
use itoa::Buffer;
use vx_io::{Sink, SinkFault, put_all};
use vx_link::LinkFault;
use vx_words::{WORD, spelled_byte};

/// A piece of a line.
#[derive(Clone, Copy)]
enum Piece<'a> {
    Text(&'a [u8]),
    Word(&'a [u8]),
    Number(u64),
}

/// Puts a byte as it stands in a word.
fn put_byte<E: Sink>(sink: &mut E, b: u8) -> Result<(), SinkFault>
    ensures { IsPut (E.seen sink.old) (E.seen sink.new) (spelled_byte 33 b) result }
{
    let mut room = [0; 3];
    put_all(sink, spelled_byte(WORD, b, &mut room))
}

/// Puts a name as a word.
fn put_word<E: Sink>(sink: &mut E, name: &[u8]) -> Result<(), SinkFault>
    ensures { IsPut (E.seen sink.old) (E.seen sink.new) (word_of name.now) result }
{
    for b in name {
        put_byte(sink, *b)?;
    }
    Ok(())
}

fn put_piece<E: Sink>(sink: &mut E, piece: &Piece<'_>) -> Result<(), SinkFault>
    ensures { IsPut (E.seen sink.old) (E.seen sink.new) (piece_bytes piece.now) result }
{
    match piece {
        Piece::Text(text) => put_all(sink, text),
        Piece::Word(name) => put_word(sink, name),
        Piece::Number(n) => put_all(sink, Buffer::new().format(*n).as_bytes()),
    }
}

fn put_pieces<E: Sink>(sink: &mut E, pieces: &[Piece<'_>]) -> Result<(), SinkFault>
    ensures { IsPut (E.seen sink.old) (E.seen sink.new) (flat_map piece_bytes pieces.now) result }
{
    for piece in pieces {
        put_piece(sink, piece)?;
    }
    Ok(())
}

/// The two pieces of what a fault of linking says.
fn link_pieces(fault: &LinkFault) -> (Piece<'_>, Piece<'_>)
    ensures { piece_bytes result.0 ++ piece_bytes result.1 ≡ link_text fault.now }
{
    match fault {
        LinkFault::NoMemory => (Piece::Text(b"no memory"), Piece::Text(b"")),
        LinkFault::Twice { class } => (Piece::Text(b"twice "), Piece::Word(class.bytes())),
        LinkFault::NoSuper { class } => (Piece::Text(b"no super "), Piece::Word(class.bytes())),
        LinkFault::Cycle { class } => (Piece::Text(b"cycle "), Piece::Word(class.bytes())),
        LinkFault::NoMain => (Piece::Text(b"no main"), Piece::Text(b"")),
        LinkFault::NoOption { option } => (Piece::Text(b"no option "), Piece::Word(option.bytes())),
        LinkFault::FinalSuper { class } => {
            (Piece::Text(b"final super "), Piece::Word(class.bytes()))
        }
    }
}

/// Puts the line that says how a call ended.
pub fn put_line<E: Sink>(sink: &mut E, status: &Status) -> Result<(), SinkFault>
    ensures { IsPut (E.seen sink.old) (E.seen sink.new) (line_of status.now) result }
{
    match status {
        Status::Done => Ok(()),
        Status::NoMemory => put_all(sink, b"no memory\n"),
        Status::Usage => put_all(sink, b"usage\n"),
        Status::ReadFault { path } => put_pieces(
            sink,
            &[
                Piece::Text(b"read fault "),
                Piece::Word(path.bytes()),
                Piece::Text(b"\n"),
            ],
        ),
        Status::WriteFault => put_all(sink, b"write fault\n"),
        Status::BadModel { line, reason } => put_pieces(
            sink,
            &[
                Piece::Text(b"bad model line "),
                Piece::Number(*line),
                Piece::Text(b" reason "),
                Piece::Number(u64::from(*reason)),
                Piece::Text(b"\n"),
            ],
        ),
        Status::NoConfiguration => put_all(sink, b"no configuration\n"),
        Status::BadClass { path, at, reason } => put_pieces(
            sink,
            &[
                Piece::Text(b"bad class "),
                Piece::Word(path.bytes()),
                Piece::Text(b" at "),
                Piece::Number(*at),
                Piece::Text(b" reason "),
                Piece::Number(u64::from(*reason)),
                Piece::Text(b"\n"),
            ],
        ),
        Status::BadLink { fault } => {
            let (what, which) = link_pieces(fault);
            put_pieces(sink, &[what, which, Piece::Text(b"\n")])
        }
        Status::BadReport { line } => put_pieces(
            sink,
            &[
                Piece::Text(b"bad report line "),
                Piece::Number(*line),
                Piece::Text(b"\n"),
            ],
        ),
        Status::NotAllowed => put_all(sink, b"not allowed\n"),
        Status::BadSource { line, reason } => put_pieces(
            sink,
            &[
                Piece::Text(b"bad source line "),
                Piece::Number(*line),
                Piece::Text(b" reason "),
                Piece::Number(u64::from(*reason)),
                Piece::Text(b"\n"),
            ],
        ),
        Status::TooLarge { path, room } => put_pieces(
            sink,
            &[
                Piece::Text(b"too large "),
                Piece::Word(path.bytes()),
                Piece::Text(b" "),
                Piece::Number(*room),
                Piece::Text(b"\n"),
            ],
        ),
        Status::Unlike => put_all(sink, b"unlike\n"),
        Status::NotJoinable => put_all(sink, b"not joinable\n"),
        Status::Failing => put_all(sink, b"failing\n"),
        Status::Differing => put_all(sink, b"differing\n"),
        Status::BadExpected { line, reason } => put_pieces(
            sink,
            &[
                Piece::Text(b"bad expected line "),
                Piece::Number(*line),
                Piece::Text(b" reason "),
                Piece::Number(u64::from(*reason)),
                Piece::Text(b"\n"),
            ],
        ),
    }
}
