//! The beginning of the initialisation of a class (JVMS 5.5).

ghost use Rattle.std.specs.Prelude.{◌≡◌, IfOk, None};
ghost use Rattle.vx_java.specs.Ids.{HasClassNumbers};
ghost use Rattle.vx_java.specs.Initialisation.{begin, begin_chain, begin_free, chain_blocked, is_below_failed, pushed_chain};
ghost use Rattle.vx_java.specs.Machine.{Go, Raise as RaiseOutcome, unsupported_in, with_inits};
ghost use Rattle.vx_java.specs.Operation.{class_word};
ghost use Rattle.vx_link.specs.ClassNames.{class_text, core_class};
ghost use Rattle.vx_plain.specs.Views.{state_of};
ghost use Rattle.vx_plain_here.specs.Rows.{ComesTo};
ghost use Rattle.vx_plain_ready.specs.Waiting.{numbers_of};
ghost use Rattle.vx_value.specs.declared.slot.InitState.TheVariants.{Failed};

use crate::above::is_below_failed;
use crate::frames::{push_chain, too_many};
use std::alloc::Global;
use vx_java::{chain_blocked, core_class, init_chain};
use vx_link::Program;
use vx_plain::State;
use vx_plain_here::{Made, Outcome, unsupported_at};
use vx_spelling::class_text;
use vx_value::{ClassId, InitState};

/// The number of the word for a class that ends a run as unsupported.
const CLASS: u8 = 6;

/// A blocking interface ends the run.
fn end_blocked(alloc: Global, program: &Program, state: &State, interface: ClassId) -> Made
    ensures { let s = state_of state.now in IfOk result (ComesTo (unsupported_in program.now s class_word (class_text program.now interface.0)) s s) }
{
    let what = class_text(alloc, program, interface)?;
    unsupported_at(alloc, program, state, CLASS, what)
}

/// A class above the chain has failed: the chain has failed too.
fn fail(program: &Program, state: &mut State, chain: &[ClassId]) -> Made
    requires { HasClassNumbers program.now }
    ensures { let s = state_of state.old in IfOk result (ComesTo (RaiseOutcome (core_class program.now "java/lang/NoClassDefFoundError") None (with_inits s Failed (numbers_of chain.now))) s (state_of state.new)) }
{
    state.mark(chain, InitState::Failed);
    Ok(Outcome::Raise {
        class: core_class(program, b"java/lang/NoClassDefFoundError"),
        message: None,
    })
}

/// One frame too many raises.
fn overflow(program: &Program, _state: &State) -> Made
    requires { HasClassNumbers program.now }
    ensures { let s = state_of _state.now in IfOk result (ComesTo (RaiseOutcome (core_class program.now "java/lang/StackOverflowError") None s) s s) }
{
    Ok(Outcome::Raise {
        class: core_class(program, b"java/lang/StackOverflowError"),
        message: None,
    })
}

/// The chain has its frames on top.
fn enter_chain(alloc: Global, program: &Program, state: &mut State, chain: &[ClassId]) -> Made
    ensures { let s = state_of state.old in IfOk result (ComesTo (Go (pushed_chain program.now s (numbers_of chain.now))) s (state_of state.new)) }
{
    push_chain(alloc, program, state, chain)?;
    Ok(Outcome::Go)
}

#[tactic(auto, unfolding(vx_plain::specs::Views::state_of))]
fn has_failed_above(program: &Program, state: &State, class: ClassId) -> bool
    ensures { result ≡ is_below_failed program.now (state_of state.now).inits class.0 }
{
    is_below_failed(program, state.inits.as_slice(), class)
}

/// The initialisation of a chain without a blocking interface begins.
fn begin_free(
    alloc: Global,
    program: &Program,
    state: &mut State,
    class: ClassId,
    chain: &[ClassId],
) -> Made
    requires { HasClassNumbers program.now }
    ensures { let s = state_of state.old in IfOk result (ComesTo (begin_free program.now s class.0 (numbers_of chain.now)) s (state_of state.new)) }
{
    if has_failed_above(program, state, class) {
        return fail(program, state, chain);
    }
    if too_many(state, chain) {
        return overflow(program, state);
    }
    enter_chain(alloc, program, state, chain)
}

/// The initialisation of a chain begins.
fn begin_chain(
    alloc: Global,
    program: &Program,
    state: &mut State,
    class: ClassId,
    chain: &[ClassId],
) -> Made
    requires { HasClassNumbers program.now }
    ensures { let s = state_of state.old in IfOk result (ComesTo (begin_chain program.now s class.0 (numbers_of chain.now) (chain_blocked program.now (numbers_of chain.now))) s (state_of state.new)) }
{
    match chain_blocked(program, chain) {
        Some(interface) => end_blocked(alloc, program, state, interface),
        None => begin_free(alloc, program, state, class, chain),
    }
}

/// The initialisation of a class begins: a blocking interface ends the run, a failed class above marks the chain, and one frame too
/// many marks nothing.
#[tactic(auto, unfolding(vx_plain::specs::Views::state_of))]
pub fn begin(alloc: Global, program: &Program, state: &mut State, class: ClassId) -> Made
    requires { HasClassNumbers program.now }
    ensures { let s = state_of state.old in IfOk result (ComesTo (begin program.now s class.0) s (state_of state.new)) }
{
    let chain = init_chain(alloc, program, class, state.inits.as_slice())?;
    begin_chain(alloc, program, state, class, &chain)
}
