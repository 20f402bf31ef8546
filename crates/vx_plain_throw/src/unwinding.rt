//! The unwinding of frames (JVMS 2.10, 5.5).

ghost use Rattle.std.specs.Prelude.{◌≡◌, ◌∷◌, [], IfOk, None, OnErr, OnOk};
ghost use Rattle.vx_java.specs.Ids.{HasClassNumbers};
ghost use Rattle.vx_java.specs.Machine.{Goes, current_class, with_inits};
ghost use Rattle.vx_java.specs.Throwing.{handler_of, passed_object, passed_state, unwind};
ghost use Rattle.vx_plain.specs.Views.{state_of};
ghost use Rattle.vx_plain_throw.specs.Passing.{HasPassed, IsHandled, in_handler, wrapped_object, wrapped_state};
ghost use Rattle.vx_value.specs.declared.slot.InitState.TheVariants.{Failed};

use crate::handling::{handler_of, is_error};
use crate::making::throwable;
use std::alloc::{AllocError, Global};
use vx_java::core_class;
use vx_link::Program;
use vx_list::GivenUp;
use vx_plain::{State, Value};
use vx_value::{InitState, Kind};

/// The handler of the frame on top for an object: where it goes on, or `None` where it doesn't handle the object (JVMS 2.10).
#[tactic(auto, unfolding(vx_plain::specs::Views::state_of))]
pub fn handler_on_top(program: &Program, state: &State, object: u64) -> Option<u32>
    requires { HasClassNumbers program.now }
    ensures { result ≡ handler_of program.now (state_of state.now) (state_of state.now).top.kind object }
{
    handler_of(program, &state.top, state.class_of(object))
}

/// The frame on top goes on in its handler, with an object alone on its operands.
#[tactic(auto, unfolding(vx_plain::specs::Views::state_of))]
fn handle(state: &mut State, object: u64, handler: u32) -> Result<(), GivenUp>
    ensures { OnOk result (state_of state.new ≡ in_handler (state_of state.old) object handler) }
{
    state.top.position = handler;
    state.top.operands.clear();
    state.top.operands.push(Value::Ref(object))?;
    Ok(())
}

/// What leaves an initialisation: an error stays, another object is wrapped. Want of memory leaves the state as it was.
fn wrap(alloc: Global, program: &Program, state: &mut State, object: u64) -> Result<u64, AllocError>
    requires { HasClassNumbers program.now }
    ensures object { IfOk result (λ r. r ≡ wrapped_object program.now (state_of state.old) object) }
    ensures state { OnOk result (state_of state.new ≡ wrapped_state program.now (state_of state.old) object) }
    ensures err { OnErr result (state_of state.new ≡ state_of state.old) }
{
    if is_error(program, state.class_of(object)) {
        return Ok(object);
    }
    let class = core_class(program, b"java/lang/ExceptionInInitializerError");
    let made = throwable(alloc, program, class, Value::Null, Value::Ref(object))?;
    state.add(made)
}

/// An object leaves an initialisation, which has failed. Want of memory leaves the state as it was.
fn pass_initialisation(
    alloc: Global,
    program: &Program,
    state: &mut State,
    object: u64,
) -> Result<u64, AllocError>
    requires { HasClassNumbers program.now }
    ensures object { IfOk result (λ r. r ≡ wrapped_object program.now (state_of state.old) object) }
    ensures state { OnOk result (state_of state.new ≡ with_inits (wrapped_state program.now (state_of state.old) object) Failed (current_class program.now (state_of state.old) ∷ [])) }
    ensures err { OnErr result (state_of state.new ≡ state_of state.old) }
{
    let class = state.current_class(program);
    let thrown = wrap(alloc, program, state, object)?;
    state.mark_one(class, InitState::Failed);
    Ok(thrown)
}

/// An object passes the frame on top, which stays there: what leaves an initialisation marks its class and is wrapped, unless it is an
/// error (JVMS 5.5). The only refusal is want of memory, which leaves the state as it was.
pub fn pass(
    alloc: Global,
    program: &Program,
    state: &mut State,
    object: u64,
) -> Result<u64, AllocError>
    requires { HasClassNumbers program.now }
    ensures object { IfOk result (λ r. r ≡ passed_object program.now (state_of state.old) (state_of state.old).top.kind object) }
    ensures state { OnOk result (state_of state.new ≡ passed_state program.now (state_of state.old) (state_of state.old).top.kind object) }
    ensures err { OnErr result (state_of state.new ≡ state_of state.old) }
{
    match state.kind() {
        Kind::Call => Ok(object),
        Kind::Init => pass_initialisation(alloc, program, state, object),
        Kind::Wait => pass_initialisation(alloc, program, state, object),
    }
}

/// An object passes the frame on top, which does not handle it and is taken off.
fn pass_top(
    alloc: Global,
    program: &Program,
    state: &mut State,
    object: u64,
) -> Result<u64, GivenUp>
    requires classes { HasClassNumbers program.now }
    requires unhandled { None ≡ handler_of program.now (state_of state.old) (state_of state.old).top.kind object }
    requires handled { IsHandled program.now (state_of state.old) object }
    ensures { IfOk result (HasPassed program.now (state_of state.old) object (state_of state.new)) }
{
    let thrown = pass(alloc, program, state, object)?;
    let Some(_passed) = state.leave() else {
        unreachable!()
    };
    Ok(thrown)
}

/// An object passes the frames on top until one handles it.
pub(crate) fn unwind(
    alloc: Global,
    program: &Program,
    state: &mut State,
    object: u64,
) -> Result<(), GivenUp>
    requires classes { HasClassNumbers program.now }
    requires handled { IsHandled program.now (state_of state.old) object }
    ensures { let s = state_of state.old in OnOk result (unwind program.now s object s.callers ≡ Goes (state_of state.new)) }
{
    let mut thrown = object;
    let depth = state.depth();
    for _passed in 0..depth {
        match handler_on_top(program, state, thrown) {
            Some(handler) => return handle(state, thrown, handler),
            None => thrown = pass_top(alloc, program, state, thrown)?,
        }
    }
    unreachable!()
}
