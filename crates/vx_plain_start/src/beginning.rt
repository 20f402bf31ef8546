//! The beginning of the main class (JVMS 5.2, 5.5).

ghost use Rattle.std.specs.Prelude.{◌≡◌, ◌+◌, IfOk, Some, codes, length, nat_lt};
ghost use Rattle.vx_java.specs.Ids.{HasClassNumbers};
ghost use Rattle.vx_java.specs.Initialisation.{chain_blocked, quiet_chain};
ghost use Rattle.vx_java.specs.Machine.{depth, frame_bound, place};
ghost use Rattle.vx_java.specs.Operation.{class_word};
ghost use Rattle.vx_java.specs.Step.{begun, if_quiet, with_room};
ghost use Rattle.vx_link.specs.ClassNames.{class_text};
ghost use Rattle.vx_plain.specs.Views.{state_of};
ghost use Rattle.vx_plain_ready.specs.Waiting.{numbers_of};
ghost use Rattle.vx_plain_start.specs.Beginning.{Began, started};
ghost use Rattle.vx_value.specs.declared.end.End.TheVariants.{Uncaught, Unsupported};

use std::alloc::{AllocError, Global};
use vx_java::{chain_blocked, init_chain, place};
use vx_link::Program;
use vx_list::GivenUp;
use vx_plain::State;
use vx_plain_ready::{push_chain, too_many};
use vx_spelling::class_text;
use vx_value::{ClassId, End, InitState, Name};

/// The number of the word for a class that ends a run as unsupported.
const CLASS: u8 = 6;

/// A blocking interface ends the run.
#[tactic(auto, unfolding(vx_plain::specs::Views::state_of))]
fn blocked_end(
    alloc: Global,
    program: &Program,
    state: &State,
    interface: ClassId,
) -> Result<Option<End>, AllocError>
    ensures { IfOk result (λ end. end ≡ Some (Unsupported class_word (class_text program.now interface.0) (place program.now (state_of state.now)))) }
{
    let what = class_text(alloc, program, interface)?;
    let place = place(alloc, program, state.top.method, state.top.position)?;
    Ok(Some(End::Unsupported {
        word: CLASS,
        what,
        place,
    }))
}

/// One frame too many ends the run.
fn overflow_end(alloc: Global) -> Result<Option<End>, AllocError>
    ensures { IfOk result (λ end. end ≡ Some (Uncaught (codes "java/lang/StackOverflowError"))) }
{
    let class = Name::of(alloc, b"java/lang/StackOverflowError")?;
    Ok(Some(End::Uncaught(class)))
}

/// A chain that has frames gets them, unless they are too many.
fn begin_frames(
    alloc: Global,
    program: &Program,
    state: &mut State,
    chain: &[ClassId],
) -> Result<Option<End>, GivenUp>
    ensures { let s = state_of state.old in IfOk result (Began (with_room program.now s (numbers_of chain.now) (nat_lt frame_bound (depth s + length (numbers_of chain.now)))) s (state_of state.new)) }
{
    if too_many(state, chain) {
        return Ok(overflow_end(alloc)?);
    }
    push_chain(alloc, program, state, chain)?;
    Ok(None)
}

/// A chain that no interface blocks is marked, or has its frames.
fn begin_free(
    alloc: Global,
    program: &Program,
    state: &mut State,
    class: ClassId,
    chain: &[ClassId],
) -> Result<Option<End>, GivenUp>
    ensures { let s = state_of state.old in IfOk result (Began (if_quiet program.now s (numbers_of chain.now) (quiet_chain program.now s.inits class.0)) s (state_of state.new)) }
{
    if state.is_quiet(program, class) {
        state.mark(chain, InitState::Done);
        return Ok(None);
    }
    begin_frames(alloc, program, state, chain)
}

/// A chain begins.
fn begin_chain(
    alloc: Global,
    program: &Program,
    state: &mut State,
    class: ClassId,
    chain: &[ClassId],
) -> Result<Option<End>, GivenUp>
    requires { HasClassNumbers program.now }
    ensures { let s = state_of state.old in IfOk result (Began (begun program.now s class.0 (numbers_of chain.now) (chain_blocked program.now (numbers_of chain.now))) s (state_of state.new)) }
{
    match chain_blocked(program, chain) {
        Some(interface) => Ok(blocked_end(alloc, program, state, interface)?),
        None => begin_free(alloc, program, state, class, chain),
    }
}

/// The chain of the main class is marked, or has its frames above that of main; a blocking interface or one frame too many ends
/// the run.
#[tactic(auto, unfolding(vx_plain::specs::Views::state_of))]
pub fn begin_main(
    alloc: Global,
    program: &Program,
    state: &mut State,
) -> Result<Option<End>, GivenUp>
    requires { HasClassNumbers program.now }
    ensures { let s = state_of state.old in IfOk result (Began (started program.now s) s (state_of state.new)) }
{
    let class = state.current_class(program);
    let chain = init_chain(alloc, program, class, state.inits.as_slice())?;
    begin_chain(alloc, program, state, class, &chain)
}
