//! What one configuration prints on a stream.

ghost use Rattle.std.specs.Prelude.{◌≡◌, ◌++◌, IfOk, OnOk, option_map};
ghost use Rattle.vx_report.specs.Projection.{same_stream};
ghost use Rattle.vx_count.specs.Output.{output_of, output_text, piece_output};

use std::alloc::{AllocError, Global};
use vx_report::{Piece, Report};
use vx_space::Config;
use vx_value::Stream;

fn same_stream(one: Stream, other: Stream) -> bool
    ensures { result ≡ same_stream one other }
{
    match (one, other) {
        (Stream::Out, Stream::Out) | (Stream::Err, Stream::Err) => true,
        _ => false,
    }
}

/// Puts the bytes of a piece, if a configuration has it and it is on the stream.
fn put_piece(
    out: &mut Vec<u8>,
    report: &Report,
    stream: Stream,
    c: &Config,
    piece: &Piece,
) -> Result<(), AllocError>
    ensures { OnOk result (out.new.items ≡ out.old.items ++ piece_output report.now stream c.now piece.now) }
{
    if same_stream(stream, piece.stream) && report.holds(piece.node, c) {
        return out.extend_from_slice(piece.text.bytes());
    }
    Ok(())
}

/// Puts the bytes of the pieces that a configuration has on a stream.
fn put_output(
    out: &mut Vec<u8>,
    report: &Report,
    stream: Stream,
    c: &Config,
) -> Result<(), AllocError>
    ensures { OnOk result (out.new.items ≡ out.old.items ++ output_of report.now stream c.now) }
{
    for piece in report.pieces.as_slice() {
        put_piece(out, report, stream, c, piece)?;
    }
    Ok(())
}

/// The bytes that a configuration prints on a stream, with nothing before or behind them. `None` where no end's node holds the
/// configuration.
pub fn output_text(
    alloc: Global,
    report: &Report,
    stream: Stream,
    c: &Config,
) -> Result<Option<Vec<u8>>, AllocError>
    ensures { IfOk result (λ text. option_map (λ t. t.items) text ≡ output_text report.now stream c.now) }
{
    if report.end_of(c).is_none() {
        return Ok(None);
    }
    let mut out = Vec::new(alloc);
    put_output(&mut out, report, stream, c)?;
    Ok(Some(out))
}
