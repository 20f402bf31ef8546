//! Objects that are thrown, and classes that are raised. The handler is looked for before any frame is passed, so a run that ends by
//! an exception stands as it stood.

ghost use Rattle.std.specs.Prelude.{◌≡◌, IfOk, option_map};
ghost use Rattle.vx_java.specs.Ids.{HasClassNumbers};
ghost use Rattle.vx_java.specs.Throwing.{next_after_raise, next_after_throw};
ghost use Rattle.vx_link.specs.ClassNames.{class_text};
ghost use Rattle.vx_plain.specs.Views.{state_of};
ghost use Rattle.vx_plain_throw.specs.Passing.{IsHandled, Led};
ghost use Rattle.vx_plain_throw.specs.declared.next.Next.TheVariants.{Ends};
ghost use Rattle.vx_value.specs.declared.end.End.TheVariants.{Uncaught};

use crate::handling::uncaught;
use crate::making::exception;
use crate::next::Next;
use crate::unwinding::unwind;
use std::alloc::{AllocError, Global};
use vx_link::Program;
use vx_list::GivenUp;
use vx_plain::State;
use vx_spelling::class_text;
use vx_value::{ClassId, End};

/// The run ends by the class that is thrown in the end.
fn end(alloc: Global, program: &Program, class: ClassId) -> Result<Next, AllocError>
    ensures { IfOk result (λ next. next ≡ Ends (Uncaught (class_text program.now class.0))) }
{
    let class = class_text(alloc, program, class)?;
    Ok(Next::Ends(End::Uncaught(class)))
}

/// The first frame that handles an object goes on with it alone on its operands.
fn go_on(alloc: Global, program: &Program, state: &mut State, object: u64) -> Result<Next, GivenUp>
    requires classes { HasClassNumbers program.now }
    requires handled { IsHandled program.now (state_of state.old) object }
    ensures { let s = state_of state.old in IfOk result (Led (next_after_throw program.now s object) s (state_of state.new)) }
{
    unwind(alloc, program, state, object)?;
    Ok(Next::Goes)
}

/// An object is thrown: the first frame that handles it goes on with it alone on its operands, or the run ends.
pub fn throw(
    alloc: Global,
    program: &Program,
    state: &mut State,
    object: u64,
) -> Result<Next, GivenUp>
    requires { HasClassNumbers program.now }
    ensures { let s = state_of state.old in IfOk result (Led (next_after_throw program.now s object) s (state_of state.new)) }
{
    match uncaught(program, state, state.class_of(object)) {
        Some(class) => Ok(end(alloc, program, class)?),
        None => go_on(alloc, program, state, object),
    }
}

/// A class is raised: its exception is made, behind its message's text, and thrown.
pub fn raise(
    alloc: Global,
    program: &Program,
    state: &mut State,
    class: ClassId,
    message: Option<Vec<u16>>,
) -> Result<Next, GivenUp>
    requires { HasClassNumbers program.now }
    ensures { let s = state_of state.old in IfOk result (Led (next_after_raise program.now s class.0 (option_map (λ units. units.items) message)) s (state_of state.new)) }
{
    let object = exception(alloc, program, state, class, message)?;
    throw(alloc, program, state, object)
}
