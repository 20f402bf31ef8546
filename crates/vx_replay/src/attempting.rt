//! One attempt: its row, with a beginning and a native method carried out, and where that leads.

ghost use Rattle.std.specs.Prelude.{IfOk, None, ◌≡◌};
ghost use Rattle.vx_java.specs.Ids.{HasClassNumbers};
ghost use Rattle.vx_java.specs.Step.{outcome_carried_out};
ghost use Rattle.vx_plain.specs.Views.{state_of};
ghost use Rattle.vx_plain_here.specs.Rows.{ComesTo, outcome_over};
ghost use Rattle.vx_plain_tables.specs.Tables.{AreTables};
ghost use Rattle.vx_replay.specs.Attempts.{IsAttempt, Leads};

use crate::natives::native;
use std::alloc::Global;
use vx_link::Program;
use vx_list::GivenUp;
use vx_plain::State;
use vx_plain_here::{Made, Outcome};
use vx_plain_ready::begin;
use vx_plain_rows::row;
use vx_plain_tables::Tables;
use vx_plain_throw::{Next, raise, throw};
use vx_spelling::utf8;
use vx_value::Stream;

/// A text that was written, as bytes of UTF-8, and its stream.
#[derive(Drop)]
pub struct Written {
    pub stream: Stream,
    pub bytes: Vec<u8>,
}

/// What an attempt comes to: where it leads, and what it has written.
#[derive(Drop)]
pub struct Attempted {
    pub next: Next,
    pub written: Option<Written>,
}

/// Carries out a beginning or a native method; another outcome stays. The only refusal is want of memory.
pub fn carried_out(
    alloc: Global,
    program: &Program,
    tables: &Tables,
    state: &mut State,
    outcome: Outcome,
) -> Made
    requires classes { HasClassNumbers program.now }
    requires tables { AreTables program.now tables.now }
    ensures { let s = state_of state.old in IfOk result (ComesTo (outcome_carried_out program.now (outcome_over s outcome)) s (state_of state.new)) }
{
    match outcome {
        Outcome::Begin(class) => begin(alloc, program, state, class),
        Outcome::Native(method) => native(alloc, program, tables, state, method),
        other => Ok(other),
    }
}

/// An attempt that writes nothing.
fn silent(next: Next) -> Attempted
    ensures { result ≡ record { next = next; written = None } }
{
    Attempted {
        next,
        written: None,
    }
}

/// Where an outcome leads that has been carried out, and what it writes. Where it ends the run, the frames stand as before it. The only
/// refusal is want of memory.
pub fn led(
    alloc: Global,
    program: &Program,
    state: &mut State,
    outcome: Outcome,
) -> Result<Attempted, GivenUp>
    requires { HasClassNumbers program.now }
    ensures { let s = state_of state.old in IfOk result (Leads program.now (outcome_over s outcome) s (state_of state.new)) }
{
    match outcome {
        Outcome::Go => Ok(silent(Next::Goes)),
        Outcome::Begin(_) => Ok(silent(Next::Goes)),
        Outcome::Native(_) => Ok(silent(Next::Goes)),
        Outcome::Ended(end) => Ok(silent(Next::Ends(end))),
        Outcome::Raise { class, message } => {
            let next = raise(alloc, program, state, class, message)?;
            Ok(silent(next))
        }
        Outcome::Throw(object) => {
            let next = throw(alloc, program, state, object)?;
            Ok(silent(next))
        }
        Outcome::Write(stream, units) => {
            let bytes = utf8(alloc, &units)?;
            Ok(Attempted {
                next: Next::Goes,
                written: Some(Written { stream, bytes }),
            })
        }
    }
}

/// One attempt of a run: what `step` makes of it. Where it ends the run, the frames stand as before it. The only refusal is want of
/// memory.
pub fn attempt(
    alloc: Global,
    program: &Program,
    tables: &Tables,
    state: &mut State,
) -> Result<Attempted, GivenUp>
    requires classes { HasClassNumbers program.now }
    requires tables { AreTables program.now tables.now }
    ensures { IfOk result (IsAttempt program.now (state_of state.old) (state_of state.new)) }
{
    let outcome = row(alloc, program, tables, state)?;
    let carried = carried_out(alloc, program, tables, state, outcome)?;
    led(alloc, program, state, carried)
}
