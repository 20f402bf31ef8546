//! The native methods of PrintStream, and valueOf of String.

ghost use Rattle.std.specs.Prelude.{◌≡◌};
ghost use Rattle.vx_java.specs.Texts.{print_line_end, print_of, stream_of_cell, value_of as value_as_text, write_units};
ghost use Rattle.vx_plain.specs.Views.{value_of};
ghost use Rattle.vx_plain_strings.specs.Answers.{Answers, Does};
ghost use Rattle.vx_plain_strings.specs.Texts.{spell};

use vx_plain::{State, Value};
use vx_plain_here::{Made, Outcome};
use vx_plain_strings::{Arguments, Call, Spelling, answer_text, illegal, null_pointer, spelled};
use vx_value::Stream;

/// valueOf.
pub(crate) fn value_as_text(call: &Call<'_>, state: &mut State, spelling: Spelling) -> Made
    ensures { Does call.now (value_as_text (spell spelling)) state.old state.new result }
{
    match call.values {
        Arguments::One(value) => match spelled(call, state, spelling, value)? {
            Some(units) => answer_text(call, state, units),
            None => null_pointer(call, state),
        },
        _ => illegal(call, state),
    }
}

/// The stream that a cell of a PrintStream tells.
#[tactic(auto, using(crate::proofs::Readings::other_stream))]
fn stream_of(cell: Value) -> Stream
    ensures { result ≡ stream_of_cell (value_of cell) }
{
    match cell {
        Value::Int(n) => { if n == 0 { Stream::Out } else { Stream::Err } }
        _ => Stream::Err,
    }
}

/// Goes on with units written on the stream of a PrintStream.
fn write_units(call: &Call<'_>, state: &mut State, object: u64, units: Vec<u16>) -> Made
    ensures { Answers call.now (λ h rest. write_units h rest object units.items) state.old state.new result }
{
    let stream = stream_of(state.cell(object, 0)?);
    state.pass(call.here.size, call.taken)?;
    Ok(Outcome::Write(stream, units))
}

/// print and println of a value, with what stands behind it.
pub(crate) fn print_of(
    call: &Call<'_>,
    state: &mut State,
    spelling: Spelling,
    line_end: &[u16],
) -> Made
    ensures { Does call.now (print_of (spell spelling) line_end.now) state.old state.new result }
{
    match call.values {
        Arguments::Two(Value::Ref(object), value) => {
            let Some(mut units) = spelled(call, state, spelling, value)? else {
                return null_pointer(call, state);
            };
            units.extend_from_slice(line_end)?;
            write_units(call, state, object, units)
        }
        _ => illegal(call, state),
    }
}

/// println of nothing.
pub(crate) fn print_line_end(call: &Call<'_>, state: &mut State) -> Made
    ensures { Does call.now print_line_end state.old state.new result }
{
    match call.values {
        Arguments::One(Value::Ref(object)) => {
            let line_end = Vec::from_slice(call.here.alloc, &[10])?;
            write_units(call, state, object, line_end)
        }
        _ => illegal(call, state),
    }
}
