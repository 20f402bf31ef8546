//! The trace of a run.

ghost use Rattle.std.specs.Prelude.{◌≡◌, ◌≤◌, ◌++◌, IfOk, OnOk, flat_map, length, option_map};
ghost use Rattle.vx_java.specs.Ids.{HasClassNumbers};
ghost use Rattle.vx_java.specs.Step.{start, steps};
ghost use Rattle.vx_link.specs.CoreFiles.{core_count};
ghost use Rattle.vx_noted.specs.Runs.{left_of};
ghost use Rattle.vx_plain.specs.Views.{state_of};
ghost use Rattle.vx_plain_tables.specs.Tables.{IsShort};
ghost use Rattle.vx_replay.specs.Replays.{IsReplay, places_in};
ghost use Rattle.vx_trace.specs.TraceText.{end_text, exception_text, frame_line, lines_in, thrown_by, traced_text};

use crate::causes::chain;
use crate::frame::put_frame;
use crate::origin::Origin;
use crate::throwable::put_chain;
use std::alloc::{AllocError, Global};
use vx_lines::LineTable;
use vx_link::Program;
use vx_noted::{Left, what_leaves};
use vx_replay::{Place, Replay, run_alone};
use vx_report::put_end;
use vx_value::{End, Name};

/// The text of an exception that has left a run.
fn exception_text(origin: &Origin<'_>, left: &Left) -> Result<Vec<u8>, AllocError>
    ensures { let s = state_of left.now.state in IfOk result (λ text. text.items ≡ exception_text origin.now.program.now s
        (lines_in origin.now (start origin.now.program.now origin.now.config.now) s) left.now.object) }
{
    let chain = chain(origin.alloc, &left.state, left.object)?;
    let mut out = Vec::new(origin.alloc);
    put_chain(&mut out, origin, &left.state, chain.as_slice())?;
    Ok(out)
}

fn put_frames(out: &mut Vec<u8>, origin: &Origin<'_>, frames: &[Place]) -> Result<(), AllocError>
    ensures { OnOk result (out.new.items ≡ out.old.items ++ flat_map (λ at. frame_line origin.now.program.now origin.now.tables.now origin.now.files.now at.0 at.1) (places_in frames.now)) }
{
    for at in frames {
        put_frame(out, origin, *at)?;
    }
    Ok(())
}

/// The text of an end that is no exception which leaves the run.
fn end_text(origin: &Origin<'_>, replay: &Replay) -> Result<Vec<u8>, AllocError>
    ensures { IfOk result (λ text. text.items ≡ end_text origin.now.program.now origin.now.tables.now origin.now.files.now replay.now.end (places_in replay.now.frames.items)) }
{
    let mut out = Vec::new(origin.alloc);
    put_end(&mut out, &replay.end)?;
    out.extend_from_slice(b"\n")?;
    put_frames(&mut out, origin, replay.frames.as_slice())?;
    Ok(out)
}

/// What leaves the run that came to a replay.
fn thrown_by(origin: &Origin<'_>, replay: &Replay) -> Result<Option<Left>, AllocError>
    requires { IsReplay (steps origin.now.program.now origin.now.limit (start origin.now.program.now origin.now.config.now)) replay.now }
    ensures { IfOk result (λ left. option_map left_of left ≡ thrown_by origin.now.program.now (steps origin.now.program.now origin.now.limit (start origin.now.program.now origin.now.config.now)) replay.now.end) }
{
    match &replay.end {
        End::Uncaught(_) => what_leaves(
            origin.alloc,
            origin.program,
            origin.config,
            origin.limit,
            replay.attempts,
        ),
        _ => Ok(None),
    }
}

/// The text of what a run came to.
fn text_by(origin: &Origin<'_>, replay: &Replay) -> Result<Vec<u8>, AllocError>
    requires { IsReplay (steps origin.now.program.now origin.now.limit (start origin.now.program.now origin.now.config.now)) replay.now }
    ensures { IfOk result (λ text. text.items ≡ traced_text origin.now.program.now origin.now.tables.now origin.now.files.now origin.now.limit (start origin.now.program.now origin.now.config.now)) }
{
    let left = thrown_by(origin, replay)?;
    match left {
        Some(left) => exception_text(origin, &left),
        None => end_text(origin, replay),
    }
}

/// The text of the trace of a program at a configuration, within so many attempts: of an end by an exception the class and the message
/// with a line for each frame in which it was made, as a Java machine prints them, and its causes likewise; of any other end the words
/// of a report, and a line for each frame of the state in which the last attempt was made. The line tables and the source files are
/// those of the folder's classes, in the order of the program. The only refusal is want of memory.
pub fn trace_text(
    alloc: Global,
    program: &Program,
    tables: &[LineTable],
    files: &[Option<Name>],
    config: &[bool],
    limit: u64,
) -> Result<Vec<u8>, AllocError>
    requires classes { HasClassNumbers program.now }
    requires core { core_count ≤ length program.now.classes }
    requires short { IsShort program.now }
    ensures { IfOk result (λ text. text.items ≡ traced_text program.now tables.now files.now limit (start program.now config.now)) }
{
    let replay = run_alone(alloc, program, config, limit)?;
    let origin = Origin {
        alloc,
        program,
        tables,
        files,
        config,
        limit,
    };
    text_by(&origin, &replay)
}
