//! Returns (JVMS 2.6.4, 6.5 ireturn, lreturn, areturn, return).

ghost use Rattle.std.specs.Prelude.{◌≡◌, ◌<◌, ◌+◌, ◌^◌, IfOk, OnOk, Some, option_map, true};
ghost use Rattle.vx_java.specs.Checks.{sort_of};
ghost use Rattle.vx_java.specs.Returns.{agrees, awake, fits_caller, frame_resumed, return_from, return_to, return_value, same_sort, values_returned};
ghost use Rattle.vx_link.specs.Parts.{method_at};
ghost use Rattle.vx_link.specs.Signature.{signature};
ghost use Rattle.vx_plain.specs.Views.{frame_of, state_of, value_of};
ghost use Rattle.vx_plain_calls.specs.Returns.{as_list, fits_below, initialised, size_at, values_in};
ghost use Rattle.vx_plain_here.specs.Rows.{ComesTo, here_in};
ghost use Rattle.vx_plain_tables.specs.Tables.{IsShort};
ghost use Rattle.vx_value.specs.declared.key.Kind.TheVariants.{Call};

use std::alloc::AllocError;
use vx_desc::JavaType;
use vx_java::parts::code_of;
use vx_java::{Sort, room_of, size_in};
use vx_link::Program;
use vx_list::GivenUp;
use vx_plain::{Frame, State, Value};
use vx_plain_here::{Made, Outcome, words_fit};
use vx_plain_tables::Seen;
use vx_references::sort_of;
use vx_value::{End, InitState, Kind};

/// How long the instruction is at which a frame stands.
fn size_at(program: &Program, frame: &Frame) -> u32
    requires { IsShort program.now }
    ensures value { result ≡ size_at program.now (frame_of frame.now) }
    ensures within { (frame_of frame.now).position + result < 2 ^ 32 }
{
    let position = frame.position;
    match code_of(program, frame.method) {
        Some(code) => size_in(code, position),
        None => 0,
    }
}

/// Whether a value that is handed back fits on the caller's operands; where there is none, nothing is asked.
fn fits_caller(program: &Program, frame: &Frame, value: Option<Value>) -> bool
    ensures { result ≡ fits_caller program.now (frame_of frame.now) (as_list (option_map value_of value)) }
{
    match value {
        Some(value) => words_fit(
            frame.words_under(0),
            value.width(),
            room_of(program, frame.method) as usize,
        ),
        None => true,
    }
}

/// The caller moves past its call and gets the value.
fn resume(program: &Program, frame: &mut Frame, value: Option<Value>) -> Result<(), GivenUp>
    requires { IsShort program.now }
    ensures { OnOk result (frame_of frame.new ≡ frame_resumed program.now (frame_of frame.old) (as_list (option_map value_of value))) }
{
    let size = size_at(program, frame);
    frame.position += size;
    match value {
        Some(value) => Ok(frame.push(value)?),
        None => Ok(()),
    }
}

/// Whether a sort is that of a type.
fn same_sort(sort: Sort, result_type: JavaType) -> bool
    ensures { result ≡ same_sort sort (sort_of result_type) }
{
    match (sort, sort_of(result_type)) {
        (Sort::Int, Some(Sort::Int)) => true,
        (Sort::Long, Some(Sort::Long)) => true,
        (Sort::Reference, Some(Sort::Reference)) => true,
        _ => false,
    }
}

/// Whether the kind of the instruction agrees with the descriptor of the method.
fn agrees(sort: Option<Sort>, result_type: Option<JavaType>) -> bool
    ensures { result ≡ agrees sort result_type }
{
    match (sort, result_type) {
        (None, None) => true,
        (Some(sort), Some(result_type)) => same_sort(sort, result_type),
        (Some(_), None) => false,
        (None, Some(_)) => false,
    }
}

/// What is handed back.
#[derive(Clone, Copy)]
pub(crate) enum Returned {
    /// No value.
    Nothing,
    Value(Value),
    /// What stands on top is not of the kind.
    Illegal,
}

fn value_on_top(state: &State, sort: Option<Sort>) -> Returned
    ensures { values_in result ≡ values_returned sort (state_of state.now).top.operands }
{
    match sort {
        Some(sort) => match state.operand(0) {
            Some(value) => {
                if value.is_of(sort) {
                    Returned::Value(value)
                } else {
                    Returned::Illegal
                }
            }
            None => Returned::Illegal,
        },
        None => Returned::Nothing,
    }
}

/// The frame below an initialisation stays where it stands, and is the next to initialise if it waits.
fn awake(kind: Kind) -> Kind
    ensures { result ≡ awake kind }
{
    match kind {
        Kind::Wait => Kind::Init,
        Kind::Call => Kind::Call,
        Kind::Init => Kind::Init,
    }
}

/// Whether a value that is handed back fits on the caller of the frame on top; `None` where it has no caller.
#[tactic(auto, unfolding(vx_plain::specs::Views::state_of))]
fn fits_below(program: &Program, state: &State, value: Option<Value>) -> Option<bool>
    ensures { result ≡ fits_below program.now (state_of state.now).callers (as_list (option_map value_of value)) }
{
    match state.callers.as_slice().last() {
        Some(caller) => Some(fits_caller(program, caller, value)),
        None => None,
    }
}

#[tactic(auto, unfolding(vx_plain::specs::Views::state_of))]
fn resume_top(program: &Program, state: &mut State, value: Option<Value>) -> Result<(), GivenUp>
    requires { IsShort program.now }
    ensures { OnOk result (state_of state.new ≡ record (state_of state.old) { top = frame_resumed program.now (state_of state.old).top (as_list (option_map value_of value)) }) }
{
    resume(program, &mut state.top, value)
}

/// The frame on top is left, and its caller moves past its call and gets the value.
fn hand_back(seen: &Seen<'_>, state: &mut State, value: Option<Value>) -> Made
    requires { fits_below seen.now.here.program.now (state_of state.old).callers (as_list (option_map value_of value)) ≡ Some true }
    ensures { let h = here_in seen.now.here (state_of state.old) in IfOk result (ComesTo (return_to h Call (as_list (option_map value_of value)) h.state.callers) h.state (state_of state.new)) }
{
    match state.leave() {
        Some(_) => {
            resume_top(seen.here.program, state, value)?;
            Ok(Outcome::Go)
        }
        None => unreachable!(),
    }
}

/// A return from a call.
fn return_call(seen: &Seen<'_>, state: &mut State, value: Option<Value>) -> Made
    ensures { let h = here_in seen.now.here (state_of state.old) in IfOk result (ComesTo (return_to h Call (as_list (option_map value_of value)) h.state.callers) h.state (state_of state.new)) }
{
    match fits_below(seen.here.program, state, value) {
        Some(fits) => {
            if fits {
                hand_back(seen, state, value)
            } else {
                seen.here.illegal(state)
            }
        }
        None => Ok(Outcome::Ended(End::Return)),
    }
}

#[tactic(auto, unfolding(vx_plain::specs::Views::state_of))]
fn wake_top(state: &mut State)
    ensures { state_of state.new ≡ record (state_of state.old) { top = record ((state_of state.old).top) { kind = awake (state_of state.old).top.kind } } }
{
    let kind = awake(state.top.kind);
    state.top.kind = kind;
}

/// A return from an initialisation: its class is initialised, and the frame below goes on.
fn return_initialised(seen: &Seen<'_>, state: &mut State) -> Made
    ensures { let h = here_in seen.now.here (state_of state.old) in IfOk result (ComesTo (initialised h h.state.callers) h.state (state_of state.new)) }
{
    let class = state.current_class(seen.here.program);
    match state.leave() {
        Some(_) => {
            state.mark_one(class, InitState::Done);
            wake_top(state);
            Ok(Outcome::Go)
        }
        None => Ok(Outcome::Ended(End::Return)),
    }
}

/// A return by the kind of the frame, to the frame below or to none.
fn return_value(seen: &Seen<'_>, state: &mut State, value: Option<Value>) -> Made
    ensures { let h = here_in seen.now.here (state_of state.old) in IfOk result (ComesTo (return_to h h.state.top.kind (as_list (option_map value_of value)) h.state.callers) h.state (state_of state.new)) }
{
    match state.kind() {
        Kind::Call => return_call(seen, state, value),
        Kind::Init => return_initialised(seen, state),
        Kind::Wait => return_initialised(seen, state),
    }
}

/// A return of what stands on top, where the instruction agrees with the descriptor.
fn return_agreed(seen: &Seen<'_>, state: &mut State, sort: Option<Sort>) -> Made
    ensures { let h = here_in seen.now.here (state_of state.old) in IfOk result (ComesTo (return_value h (values_returned sort h.state.top.operands)) h.state (state_of state.new)) }
{
    match value_on_top(state, sort) {
        Returned::Nothing => return_value(seen, state, None),
        Returned::Value(value) => return_value(seen, state, Some(value)),
        Returned::Illegal => seen.here.illegal(state),
    }
}

/// The type of the result of the method on top.
#[tactic(auto, unfolding(vx_plain::specs::Views::state_of))]
fn result_on_top(seen: &Seen<'_>, state: &State) -> Result<Option<JavaType>, AllocError>
    ensures { IfOk result (λ r. r ≡ (signature (method_at seen.now.here.program.now (state_of state.now).top.method).descriptor).result) }
{
    let signature = seen.signature(state.top.method)?;
    Ok(signature.result)
}

/// ireturn, lreturn, areturn, return.
pub fn return_from(seen: &Seen<'_>, state: &mut State, sort: Option<Sort>) -> Made
    ensures { let h = here_in seen.now.here (state_of state.old) in IfOk result (ComesTo (return_from h sort) h.state (state_of state.new)) }
{
    let wanted = result_on_top(seen, state)?;
    if agrees(sort, wanted) {
        return_agreed(seen, state, sort)
    } else {
        seen.here.illegal(state)
    }
}
