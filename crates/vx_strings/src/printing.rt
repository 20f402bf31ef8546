//! What native methods of PrintStream write, at one configuration.

ghost use Rattle.std.specs.Prelude.{◌≡◌, IfOk, option_map};
ghost use Rattle.vx_natives.specs.Deeds.{deed_of};
ghost use Rattle.vx_strings.specs.Printed.{printed, stream_of, written};
ghost use Rattle.vx_strings.specs.Spelled.{spelled_of};

use crate::questions::refuse;
use crate::spelling::{SpelledText, spelled};
use std::alloc::{AllocError, Global};
use vx_natives::{Call, Effect, Exception, Printing};
use vx_value::{Slot, Stream};

/// The stream that a cell of a PrintStream stands for.
fn stream_of(cell: Slot) -> Stream
    ensures { result ≡ stream_of cell }
{
    match cell {
        Slot::Int(0) => Stream::Out,
        _ => Stream::Err,
    }
}

/// What is spelled, with an end behind it, on the stream of a cell.
fn written(stream: Slot, end: &[u16], text: Option<SpelledText>) -> Result<Effect, AllocError>
    ensures { IfOk result (λ effect. deed_of effect ≡ written stream end.now (option_map spelled_of text)) }
{
    match text {
        Some(text) => {
            let mut units = text.units;
            units.extend_from_slice(end)?;
            Ok(Effect::Print(stream_of(stream), text.start, units))
        }
        None => Ok(Effect::Raise(Exception::Null)),
    }
}

/// What a call comes to that has the cell of its stream behind its values, and what was read of its value.
pub fn printed(alloc: Global, printing: Printing, call: Call) -> Result<Effect, AllocError>
    ensures { IfOk result (λ effect. deed_of effect ≡ printed printing call) }
{
    match (printing, call) {
        (Printing::Value(spelling), Call::Three(Slot::Ref(_), value, stream)) => {
            let text = spelled(alloc, spelling, value, Slot::Top)?;
            written(stream, &[], text)
        }
        (Printing::Value(spelling), Call::Four(Slot::Ref(_), value, stream, read)) => {
            let text = spelled(alloc, spelling, value, read)?;
            written(stream, &[], text)
        }
        (Printing::Line(spelling), Call::Three(Slot::Ref(_), value, stream)) => {
            let text = spelled(alloc, spelling, value, Slot::Top)?;
            written(stream, &[10], text)
        }
        (Printing::Line(spelling), Call::Four(Slot::Ref(_), value, stream, read)) => {
            let text = spelled(alloc, spelling, value, read)?;
            written(stream, &[10], text)
        }
        (Printing::LineEnd, Call::Two(Slot::Ref(_), stream)) => {
            let end = Vec::from_slice(alloc, &[10])?;
            Ok(Effect::Print(stream_of(stream), Slot::Top, end))
        }
        _ => Ok(refuse()),
    }
}
