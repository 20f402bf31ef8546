//! The text of one run, out of a report.

ghost use Rattle.std.specs.Prelude.{◌≡◌, ◌++◌, ◌+◌, OnOk, IfOk, option_map, codes};
ghost use Rattle.std.specs.List.{flat_map};
ghost use Rattle.vx_report.specs.Lines.{end_words};
ghost use Rattle.vx_report.specs.Projection.{project, projection_text, runs, run_line, output_at, attempts_line};
ghost use Rattle.vx_report.specs.Runs.{line_end, break_before, is_shown, run_text, run_open};

use crate::meaning::holds_in;
use crate::report::{Piece, Report};
use crate::spelling::put_spelled;
use crate::writing::{put_end, word_of_stream};
use std::alloc::{AllocError, Global};
use vx_bdd_tools::Node;
use vx_space::Config;
use vx_value::{End, Stream};
use vx_words::{TEXT, put_number};

fn put_line_end(out: &mut Vec<u8>, now: Option<Stream>) -> Result<(), AllocError>
    ensures { OnOk result (out.new.items ≡ out.old.items ++ line_end now) }
{
    match now {
        None => Ok(()),
        Some(_) => out.extend_from_slice(b"\n"),
    }
}

/// Puts what stands before a text of a stream.
fn put_break(out: &mut Vec<u8>, now: Option<Stream>, stream: Stream) -> Result<(), AllocError>
    ensures { OnOk result (out.new.items ≡ out.old.items ++ break_before now stream) }
{
    match (now, stream) {
        (Some(Stream::Out), Stream::Out) | (Some(Stream::Err), Stream::Err) => return Ok(()),
        (Some(_), _) => out.extend_from_slice(b"\n")?,
        (None, _) => {}
    }
    out.extend_from_slice(word_of_stream(stream))?;
    out.extend_from_slice(b" ")
}

/// Puts a piece, if its node holds the configuration, and gives the stream of the line that is open then.
fn put_run(
    out: &mut Vec<u8>,
    now: Option<Stream>,
    nodes: &[Node],
    c: &Config,
    piece: &Piece,
) -> Result<Option<Stream>, AllocError>
    ensures text { OnOk result (out.new.items ≡ out.old.items ++ run_text (is_shown nodes.now c.now piece.now) now piece.now) }
    ensures open_line { IfOk result (λ then_open. then_open ≡ run_open (is_shown nodes.now c.now piece.now) now piece.now) }
{
    let text = piece.text.bytes();
    if text.is_empty() || !holds_in(nodes, piece.node, c) {
        return Ok(now);
    }
    put_break(out, now, piece.stream)?;
    put_spelled(out, TEXT, text)?;
    Ok(Some(piece.stream))
}

/// Puts a line for each longest run of pieces of one stream.
fn put_output(out: &mut Vec<u8>, report: &Report, c: &Config) -> Result<(), AllocError>
    ensures { OnOk result (out.new.items ≡ out.old.items ++ flat_map run_line (runs (output_at report.now c.now))) }
{
    let nodes = report.nodes.as_slice();
    let mut now = None;
    for piece in report.pieces.as_slice() {
        now = put_run(out, now, nodes, c, piece)?;
    }
    put_line_end(out, now)?;
    Ok(())
}

fn put_end_part(out: &mut Vec<u8>, end: &End) -> Result<(), AllocError>
    ensures { OnOk result (out.new.items ≡ out.old.items ++ (codes "end " ++ end_words end.now ++ codes "\n")) }
{
    out.extend_from_slice(b"end ")?;
    put_end(out, end)?;
    out.extend_from_slice(b"\n")
}

fn put_attempts_part(out: &mut Vec<u8>, attempts: Option<u64>) -> Result<(), AllocError>
    ensures { OnOk result (out.new.items ≡ out.old.items ++ attempts_line attempts) }
{
    match attempts {
        None => Ok(()),
        Some(n) => {
            out.extend_from_slice(b"attempts ")?;
            put_number(out, n)?;
            out.extend_from_slice(b"\n")
        }
    }
}

/// The text of a report's projection at a configuration: a line `out TEXT` or `err TEXT` for each longest run of pieces
/// of one stream, then `end END`, and where the report says it, `attempts N`. `None` where no end's node holds the
/// configuration.
pub fn project_text(
    alloc: Global,
    report: &Report,
    c: &Config,
) -> Result<Option<Vec<u8>>, AllocError>
    ensures { IfOk result (λ text. option_map (λ t. t.items) text ≡ option_map projection_text (project report.now c.now)) }
{
    let Some(end) = report.end_of(c) else {
        return Ok(None);
    };
    let mut out = Vec::new(alloc);
    put_output(&mut out, report, c)?;
    put_end_part(&mut out, end)?;
    put_attempts_part(&mut out, report.attempts_of(c))?;
    Ok(Some(out))
}
