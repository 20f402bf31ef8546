//! The frames of a chain of classes whose initialisation begins (JVMS 5.5).

ghost use Rattle.std.specs.Prelude.{◌≡◌, OnErr, OnOk, length};
ghost use Rattle.std.specs.Prelude.{nat_lt, ◌+◌};
ghost use Rattle.vx_java.specs.Initialisation.{init_frame, pushed_chain};
ghost use Rattle.vx_java.specs.Machine.{depth, frame_bound};
ghost use Rattle.vx_plain.specs.Frames.{with_frame};
ghost use Rattle.vx_plain.specs.Views.{state_of};
ghost use Rattle.vx_plain_ready.specs.Waiting.{numbers_of, roused, waiting};
ghost use Rattle.vx_value.specs.declared.key.Kind.TheVariants.{Wait};

use std::alloc::{AllocError, Global};
use vx_java::parts::initialiser_of;
use vx_link::Program;
use vx_list::GivenUp;
use vx_plain::{Frame, State};
use vx_value::{ClassId, InitState, Kind};

/// The most frames that a run may have.
pub const MOST_FRAMES: usize = 1024;

/// A frame of the initialiser of a class, which waits, is put on top. Want of memory leaves the state as it was.
fn push_waiting(
    alloc: Global,
    program: &Program,
    state: &mut State,
    class: ClassId,
) -> Result<(), AllocError>
    ensures ok { OnOk result (state_of state.new ≡ with_frame (state_of state.old) (init_frame program.now Wait class.0)) }
    ensures err { OnErr result (state_of state.new ≡ state_of state.old) }
{
    let none = Vec::new(alloc);
    let method = initialiser_of(program, class);
    let frame = Frame::of(alloc, program, Kind::Wait, method, none)?;
    state.enter(frame)
}

/// Frames that wait are put on top, that of the last class last.
#[tactic(auto, using(crate::proofs::Laws::pushed))]
fn push_all(
    alloc: Global,
    program: &Program,
    state: &mut State,
    chain: &[ClassId],
) -> Result<(), GivenUp>
    ensures { OnOk result (state_of state.new ≡ waiting program.now (state_of state.old) (numbers_of chain.now)) }
{
    for class in chain {
        push_waiting(alloc, program, state, *class)?;
    }
    Ok(())
}

/// The frame on top is the next to initialise its class.
#[tactic(auto, unfolding(vx_plain::specs::Views::state_of))]
fn rouse(state: &mut State)
    ensures { state_of state.new ≡ roused (state_of state.old) }
{
    state.top.kind = Kind::Init;
}

/// Marks a chain as running and puts its frames above those that are there: that of the last class is on top and is the next to
/// initialise, and those of the others wait.
pub fn push_chain(
    alloc: Global,
    program: &Program,
    state: &mut State,
    chain: &[ClassId],
) -> Result<(), GivenUp>
    ensures { OnOk result (state_of state.new ≡ pushed_chain program.now (state_of state.old) (numbers_of chain.now)) }
{
    state.mark(chain, InitState::Running);
    push_all(alloc, program, state, chain)?;
    if chain.len() == 0 {
        return Ok(());
    }
    rouse(state);
    Ok(())
}

fn is_over(frames: usize, more: usize) -> bool
    ensures { result ≡ nat_lt frame_bound (frames + more) }
{
    frames.saturating_add(more) > MOST_FRAMES
}

/// Whether a state has too many frames with those of a chain.
pub fn too_many(state: &State, chain: &[ClassId]) -> bool
    ensures { result ≡ nat_lt frame_bound (depth (state_of state.now) + length (numbers_of chain.now)) }
{
    is_over(state.depth(), chain.len())
}
