//! Where the frames of a state stand, with their kinds.

ghost use Rattle.std.specs.Prelude.{◌≡◌, IfOk, map};
ghost use Rattle.vx_noted.specs.Noted.{standing_at, standings_of};
ghost use Rattle.vx_plain.specs.Views.{frame_of, state_of};

use std::alloc::{AllocError, Global};
use vx_plain::{Frame, State};
use vx_value::{Kind, MethodId};

/// A frame as a trace sees it: its kind, its method and its position in the code of that.
#[derive(Clone, Copy, Debug, PartialEq, Eq)]
pub struct Standing {
    pub kind: Kind,
    pub method: MethodId,
    pub position: u32,
}

fn standing_at(frame: &Frame) -> Standing
    ensures { result ≡ standing_at (frame_of frame.now) }
{
    Standing {
        kind: frame.kind,
        method: frame.method,
        position: frame.position,
    }
}

/// Callers, the nearest last.
fn standings_below(alloc: Global, callers: &[Frame]) -> Result<Vec<Standing>, AllocError>
    ensures { IfOk result (λ frames. frames.items ≡ map standing_at (map frame_of callers.now)) }
{
    let mut frames = Vec::new(alloc);
    for frame in callers {
        frames.push(standing_at(frame))?;
    }
    Ok(frames)
}

/// The frames of a state, the one on top first.
pub(crate) fn standings_of(alloc: Global, state: &State) -> Result<Vec<Standing>, AllocError>
    ensures { IfOk result (λ frames. frames.items ≡ standings_of (state_of state.now)) }
{
    let mut frames = standings_below(alloc, state.callers.as_slice())?;
    frames.push(standing_at(&state.top))?;
    frames.reverse();
    Ok(frames)
}
