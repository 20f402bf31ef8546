//! Frames of one method in the two halves of the configurations.

use crate::conds::sides;
use std::alloc::{AllocError, Global};
use vx_cond::Projects;
use vx_frame::Frame;
use vx_space::{Space, SpaceFault};
use vx_value::{KeyPart, Kind, MethodId};

/// The method of the frames.
const METHOD: MethodId = MethodId(3);

/// A frame that begins has the part of its method's start.
fn started<S: Space>(alloc: Global, space: &S) -> Result<bool, AllocError> {
    let frame = Frame::new(alloc, space, Kind::Call, METHOD, 2, space.always())?;
    let part = KeyPart {
        method: METHOD,
        position: 0,
        depth: 0,
        kind: Kind::Call,
    };
    Ok(frame.part() == part)
}

/// Two frames of one shape make one, whose parts have the shape again.
#[tactic(auto, using(vx_frame::proofs::FrameLaws::frame_words))]
fn frames_joined<S: Space>(alloc: Global, space: &mut S) -> Result<bool, SpaceFault> {
    let (on, off) = sides(space)?;
    let first = Frame::new(alloc, space, Kind::Call, METHOD, 2, on)?;
    let second = Frame::new(alloc, space, Kind::Call, METHOD, 2, off)?;
    let whole = first.join(space, &second)?;
    let inner = whole.restrict(space, off)?;
    let is_part = inner.scope() == off;
    Ok(is_part && whole.scope() == space.always() && is_frame_of_six_ids(alloc, &whole)?)
}

/// Whether a frame has two locals, and holds the ids of these, of their scopes and of its rows.
fn is_frame_of_six_ids<S: Space>(alloc: Global, frame: &Frame<S>) -> Result<bool, AllocError> {
    let mut ids = Vec::new(alloc);
    Projects::ids_out(frame, &mut ids)?;
    Ok(frame.locals.len() == 2 && ids.len() == 6)
}

/// What trials of frames show over a space with an option.
pub(crate) fn are_right<S: Space>(alloc: Global, space: &mut S) -> Result<bool, SpaceFault> {
    Ok(started(alloc, space)? && frames_joined(alloc, space)?)
}
