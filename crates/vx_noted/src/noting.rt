//! One attempt, and the frames that it notes in an object.

ghost use Rattle.std.specs.Prelude.{◌≡◌, ◌≤◌, ◌+◌, IfOk, option_map};
ghost use Rattle.vx_java.specs.Ids.{HasClassNumbers};
ghost use Rattle.vx_noted.specs.Noted.{by_constructor, by_throwing, constructor_arguments, in_raised, in_receiver, in_wrapper, is_object, is_receiver, standings_of, texts_of};
ghost use Rattle.vx_noted.specs.Runs.{IsNoting, IsNotingBy, lead};
ghost use Rattle.vx_plain.specs.Views.{state_of, value_of};
ghost use Rattle.vx_plain_here.specs.Rows.{outcome_over};
ghost use Rattle.vx_plain_tables.specs.Tables.{AreTables};

use crate::frames::{Standing, standings_of};
use crate::wrapping::below_wrapped;
use std::alloc::{AllocError, Global};
use vx_java::parts::native_number;
use vx_link::Program;
use vx_list::GivenUp;
use vx_plain::{State, Value};
use vx_plain_here::Outcome;
use vx_plain_rows::row;
use vx_plain_tables::Tables;
use vx_plain_throw::Next;
use vx_replay::{carried_out, led};
use vx_value::{ClassId, MethodId};

/// What an attempt says of an object: the frames that it notes in it, or that it notes none and goes on, or ends the run.
#[derive(Drop)]
pub enum Noting {
    Frames(Vec<Standing>),
    Goes,
    Ends,
}

/// How many arguments the native constructor of a number takes; `None` for any other method.
fn constructor_arguments(native: u32) -> Option<usize>
    ensures { result ≡ constructor_arguments native }
{
    if native == 86 {
        Some(0)
    } else if native == 87 {
        Some(1)
    } else if native == 88 {
        Some(2)
    } else {
        None
    }
}

/// Whether an operand is an object.
fn is_object(object: u64, operand: Option<Value>) -> bool
    ensures { result ≡ is_object object (option_map value_of operand) }
{
    match operand {
        Some(Value::Ref(other)) => other == object,
        _ => false,
    }
}

/// Whether an object is the receiver of a constructor, below its arguments.
fn is_receiver(state: &State, object: u64, arguments: Option<usize>) -> bool
    ensures { result ≡ is_receiver (state_of state.now) object arguments }
{
    match arguments {
        Some(arguments) => is_object(object, state.operand(arguments)),
        None => false,
    }
}

/// The frames that a native method notes in an object.
fn in_receiver(
    alloc: Global,
    program: &Program,
    state: &State,
    method: MethodId,
    object: u64,
) -> Result<Option<Vec<Standing>>, AllocError>
    ensures { IfOk result (λ noted. option_map (λ frames. frames.items) noted ≡ in_receiver program.now (state_of state.now) method.0 object) }
{
    let arguments = constructor_arguments(native_number(program, method));
    if is_receiver(state, object, arguments) {
        let frames = standings_of(alloc, state)?;
        return Ok(Some(frames));
    }
    Ok(None)
}

/// The frames that a native constructor notes in an object, over the state in which it is carried out.
fn by_constructor(
    alloc: Global,
    program: &Program,
    state: &State,
    outcome: &Outcome,
    object: u64,
) -> Result<Option<Vec<Standing>>, AllocError>
    ensures { IfOk result (λ noted. option_map (λ frames. frames.items) noted ≡ by_constructor program.now (outcome_over (state_of state.now) outcome.now) object) }
{
    match outcome {
        Outcome::Native(method) => in_receiver(alloc, program, state, *method, object),
        Outcome::Go => Ok(None),
        Outcome::Begin(_) => Ok(None),
        Outcome::Raise { .. } => Ok(None),
        Outcome::Throw(_) => Ok(None),
        Outcome::Write(_, _) => Ok(None),
        Outcome::Ended(_) => Ok(None),
    }
}

/// The frames that a wrapper notes, where an object is that wrapper.
fn in_wrapper(
    alloc: Global,
    program: &Program,
    wrapper: u64,
    thrown: ClassId,
    state: &State,
    object: u64,
) -> Result<Option<Vec<Standing>>, AllocError>
    requires { HasClassNumbers program.now }
    ensures { IfOk result (λ noted. option_map (λ frames. frames.items) noted ≡ in_wrapper program.now wrapper thrown.0 (standings_of (state_of state.now)) object) }
{
    if wrapper != object {
        return Ok(None);
    }
    let frames = standings_of(alloc, state)?;
    match below_wrapped(program, thrown, frames.as_slice()) {
        Some(below) => Ok(Some(Vec::from_slice(alloc, below)?)),
        None => Ok(None),
    }
}

/// How many texts are made for an exception with a message or without one.
fn texts_of(message: &Option<Vec<u16>>) -> u64
    ensures { result ≡ texts_of (option_map (λ units. units.items) message.now) }
{
    match message {
        Some(_) => 1,
        None => 0,
    }
}

/// The frames that an exception notes which is raised behind so many texts, or its wrapper.
fn in_raised(
    alloc: Global,
    program: &Program,
    class: ClassId,
    texts: u64,
    state: &State,
    object: u64,
) -> Result<Option<Vec<Standing>>, AllocError>
    requires classes { HasClassNumbers program.now }
    requires few { texts ≤ 1 }
    ensures { IfOk result (λ noted. option_map (λ frames. frames.items) noted ≡ in_raised program.now (state_of state.now) class.0 (texts + 1) object) }
{
    let made = state.next_object() + texts;
    if made == object {
        let frames = standings_of(alloc, state)?;
        return Ok(Some(frames));
    }
    in_wrapper(alloc, program, made + 1, class, state, object)
}

/// The frames that an exception notes which is raised, and that a wrapper notes of what is thrown, over the state in which that is.
fn by_throwing(
    alloc: Global,
    program: &Program,
    state: &State,
    outcome: &Outcome,
    object: u64,
) -> Result<Option<Vec<Standing>>, AllocError>
    requires { HasClassNumbers program.now }
    ensures { IfOk result (λ noted. option_map (λ frames. frames.items) noted ≡ by_throwing program.now (outcome_over (state_of state.now) outcome.now) object) }
{
    match outcome {
        Outcome::Raise { class, message } => {
            in_raised(alloc, program, *class, texts_of(message), state, object)
        }
        Outcome::Throw(thrown) => {
            let wrapper = state.next_object();
            in_wrapper(
                alloc,
                program,
                wrapper,
                state.class_of(*thrown),
                state,
                object,
            )
        }
        Outcome::Go => Ok(None),
        Outcome::Begin(_) => Ok(None),
        Outcome::Native(_) => Ok(None),
        Outcome::Write(_, _) => Ok(None),
        Outcome::Ended(_) => Ok(None),
    }
}

/// Where an attempt leads that notes nothing.
fn lead(next: Next) -> Noting
    ensures { result ≡ lead next }
{
    match next {
        Next::Goes => Noting::Goes,
        Next::Ends(_) => Noting::Ends,
    }
}

/// What an outcome that was carried out says of an object, and where it leads if it notes nothing.
fn note_carried(
    alloc: Global,
    program: &Program,
    state: &mut State,
    carried: Outcome,
    object: u64,
) -> Result<Noting, GivenUp>
    requires { HasClassNumbers program.now }
    ensures { IfOk result (IsNotingBy program.now object (outcome_over (state_of state.old) carried) (state_of state.new)) }
{
    let thrown = by_throwing(alloc, program, state, &carried, object)?;
    if let Some(frames) = thrown {
        return Ok(Noting::Frames(frames));
    }
    let attempted = led(alloc, program, state, carried)?;
    Ok(lead(attempted.next))
}

/// One attempt of a run, unless it notes frames in an object. The only refusal is want of memory.
pub(crate) fn note(
    alloc: Global,
    program: &Program,
    tables: &Tables,
    state: &mut State,
    object: u64,
) -> Result<Noting, GivenUp>
    requires classes { HasClassNumbers program.now }
    requires tables { AreTables program.now tables.now }
    ensures { IfOk result (IsNoting program.now object (state_of state.old) (state_of state.new)) }
{
    let outcome = row(alloc, program, tables, state)?;
    let filled = by_constructor(alloc, program, state, &outcome, object)?;
    if let Some(frames) = filled {
        return Ok(Noting::Frames(frames));
    }
    let carried = carried_out(alloc, program, tables, state, outcome)?;
    note_carried(alloc, program, state, carried, object)
}
