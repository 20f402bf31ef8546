//! The carrying out of a selected method (JVMS 2.6, 6.5).

ghost use Rattle.std.specs.Prelude.{◌≡◌, IfOk, None, drop};
ghost use Rattle.vx_java.specs.Calls.{carry_out, enter, state_in_callee};
ghost use Rattle.vx_java.specs.Machine.{Go, method_text, unsupported};
ghost use Rattle.vx_java.specs.Operation.{native_word};
ghost use Rattle.vx_link.specs.Parts.{method_at};
ghost use Rattle.vx_plain.specs.Views.{state_of, values_of};
ghost use Rattle.vx_plain_calls.specs.Calls.{body_by, body_of, entered};
ghost use Rattle.vx_plain_here.specs.Rows.{ComesTo, here_in};

use crate::arguments::in_locals;
use vx_java::Selected;
use vx_link::Program;
use vx_plain::{Frame, State, Value};
use vx_plain_here::{Here, Made, Outcome, unsupported_at};
use vx_plain_ready::MOST_FRAMES;
use vx_references::method_name;
use vx_value::{Kind, MethodId};

/// The number of the word for a native method that ends a run as unsupported.
const NATIVE: u8 = 5;

/// How the body of a method is carried out.
#[derive(Clone, Copy)]
pub(crate) enum Body {
    /// It has code.
    Code,
    /// A native method is there for it.
    Native,
    /// Nothing is there for it.
    Missing,
}

/// The body of a method without code, by the number of its native method, which is 0 where there is none.
fn without_code(native: u32) -> Body
    ensures { result ≡ body_by native None }
{
    if native == 0 {
        Body::Missing
    } else {
        Body::Native
    }
}

fn body_of(program: &Program, method: MethodId) -> Body
    ensures { result ≡ body_of (method_at program.now method.0) }
{
    match program.method(method) {
        Some(method) => match &method.code {
            Some(_) => Body::Code,
            None => without_code(method.native),
        },
        None => Body::Missing,
    }
}

/// Puts a frame of a method on top, whose locals begin with these values; so many operands are taken off the caller.
fn push_frame(
    here: &Here<'_>,
    state: &mut State,
    method: MethodId,
    values: &[Value],
    count: usize,
) -> Made
    ensures { let h = here_in here.now (state_of state.old) in IfOk result (ComesTo (Go (state_in_callee h method.0 (values_of values.now) (drop count h.state.top.operands))) h.state (state_of state.new)) }
{
    let locals = in_locals(here.alloc, values)?;
    let frame = Frame::of(here.alloc, here.program, Kind::Call, method, locals)?;
    let position = state.position();
    state.go_to(position, count);
    state.enter(frame)?;
    Ok(Outcome::Go)
}

/// A frame of a method, unless there are too many.
fn enter_code(
    here: &Here<'_>,
    state: &mut State,
    method: MethodId,
    values: &[Value],
    count: usize,
) -> Made
    ensures { let h = here_in here.now (state_of state.old) in IfOk result (ComesTo (entered h method.0 (values_of values.now) (drop count h.state.top.operands)) h.state (state_of state.new)) }
{
    if state.depth() < MOST_FRAMES {
        push_frame(here, state, method, values, count)
    } else {
        here.raise(state, b"java/lang/StackOverflowError")
    }
}

/// A native method that isn't there ends the run.
fn missing(here: &Here<'_>, state: &State, method: MethodId) -> Made
    ensures { let h = here_in here.now (state_of state.now) in IfOk result (ComesTo (unsupported h native_word (method_text h.program (method_at h.program method.0))) h.state h.state) }
{
    let what = method_name(here.alloc, here.program, method)?;
    unsupported_at(here.alloc, here.program, state, NATIVE, what)
}

/// A native method, or a frame unless there are too many.
fn enter(
    here: &Here<'_>,
    state: &mut State,
    method: MethodId,
    values: &[Value],
    count: usize,
) -> Made
    ensures { let h = here_in here.now (state_of state.old) in IfOk result (ComesTo (enter h method.0 (method_at h.program method.0).code (values_of values.now) (drop count h.state.top.operands)) h.state (state_of state.new)) }
{
    match body_of(here.program, method) {
        Body::Code => enter_code(here, state, method, values, count),
        Body::Native => Ok(Outcome::Native(method)),
        Body::Missing => missing(here, state, method),
    }
}

/// Carries out a selected method with these values, the receiver first; so many operands are taken off the caller.
pub(crate) fn carry_out(
    here: &Here<'_>,
    state: &mut State,
    values: &[Value],
    count: usize,
    selected: Selected,
) -> Made
    ensures { let h = here_in here.now (state_of state.old) in IfOk result (ComesTo (carry_out h (values_of values.now) (drop count h.state.top.operands) selected) h.state (state_of state.new)) }
{
    match selected {
        Selected::Method(method) => enter(here, state, method, values, count),
        Selected::Abstract => here.raise(state, b"java/lang/AbstractMethodError"),
        Selected::Conflict => here.raise(state, b"java/lang/IncompatibleClassChangeError"),
    }
}
