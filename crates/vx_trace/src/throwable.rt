//! The text of a throwable.

ghost use Rattle.std.specs.Prelude.{◌≡◌, ◌++◌, [], IfOk, OnOk, codes};
ghost use Rattle.vx_java.specs.Step.{start};
ghost use Rattle.vx_plain.specs.Views.{state_of, value_of};
ghost use Rattle.vx_trace.specs.TraceText.{chain_text, head_line, lines_in, lines_text, message_words};

use crate::common::put_lines;
use crate::frame::{FrameLine, lines_at, put_dotted};
use crate::origin::Origin;
use crate::shown::shown;
use std::alloc::{AllocError, Global};
use vx_noted::noted;
use vx_plain::{State, Value};
use vx_spelling::{class_text, utf8};

/// Puts a message behind the name of a class.
fn put_message(
    alloc: Global,
    out: &mut Vec<u8>,
    state: &State,
    message: Value,
) -> Result<(), AllocError>
    ensures { OnOk result (out.new.items ≡ out.old.items ++ message_words (state_of state.now) (value_of message)) }
{
    let Value::Ref(text) = message else {
        return Ok(());
    };
    let bytes = utf8(alloc, state.text(text))?;
    out.extend_from_slice(b": ")?;
    out.extend_from_slice(bytes.as_slice())
}

/// Puts the class and the message of a throwable.
fn put_head(
    out: &mut Vec<u8>,
    origin: &Origin<'_>,
    state: &State,
    object: u64,
) -> Result<(), AllocError>
    ensures { OnOk result (out.new.items ≡ out.old.items ++ head_line origin.now.program.now (state_of state.now) object) }
{
    let class = class_text(origin.alloc, origin.program, state.class_of(object))?;
    put_dotted(out, class.bytes())?;
    let message = state.cell(object, 0)?;
    put_message(origin.alloc, out, state, message)?;
    out.extend_from_slice(b"\n")
}

/// The lines of the frames that a throwable has noted.
fn lines_of(origin: &Origin<'_>, state: &State, object: u64) -> Result<Vec<FrameLine>, AllocError>
    ensures { IfOk result (λ lines. lines.items ≡ lines_in origin.now (start origin.now.program.now origin.now.config.now) (state_of state.now) object) }
{
    let frames = noted(
        origin.alloc,
        origin.program,
        origin.config,
        origin.limit,
        object,
    )?;
    let class = state.class_of(object);
    let shown = shown(origin.alloc, origin.program, class, frames.as_slice())?;
    lines_at(origin, shown.as_slice())
}

/// Puts a throwable over the lines of the one that it caused, and gives its lines.
fn put_throwable(
    out: &mut Vec<u8>,
    origin: &Origin<'_>,
    state: &State,
    above: &[FrameLine],
    object: u64,
) -> Result<Vec<FrameLine>, AllocError>
    ensures lines { IfOk result (λ lines. lines.items ≡ lines_in origin.now (start origin.now.program.now origin.now.config.now) (state_of state.now) object) }
    ensures text { OnOk result (out.new.items ≡ out.old.items ++ (head_line origin.now.program.now (state_of state.now) object
        ++ lines_text above.now (lines_in origin.now (start origin.now.program.now origin.now.config.now) (state_of state.now) object))) }
{
    let lines = lines_of(origin, state, object)?;
    put_head(out, origin, state, object)?;
    put_lines(out, above, lines.as_slice())?;
    Ok(lines)
}

/// Puts throwables, each the cause of the one before.
pub(crate) fn put_chain(
    out: &mut Vec<u8>,
    origin: &Origin<'_>,
    state: &State,
    chain: &[u64],
) -> Result<(), AllocError>
    ensures { OnOk result (out.new.items ≡ out.old.items ++ chain_text origin.now.program.now (state_of state.now)
        (lines_in origin.now (start origin.now.program.now origin.now.config.now) (state_of state.now)) (codes "Exception in thread \"main\" ") [] chain.now) }
{
    let mut caption = b"Exception in thread \"main\" ".as_slice();
    let mut above = Vec::new(origin.alloc);
    for object in chain {
        out.extend_from_slice(caption)?;
        above = put_throwable(out, origin, state, above.as_slice(), *object)?;
        caption = b"Caused by: ".as_slice();
    }
    Ok(())
}
