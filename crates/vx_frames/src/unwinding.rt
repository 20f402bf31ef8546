//! What unwinding makes of a frame that doesn't handle an exception.

ghost use Rattle.vx_frames.specs.Unwinding.{PassesFrames};

/// One step of unwinding: a frame that doesn't handle the object is taken off, and the object is thrown on in its caller.
pub fn frames_are_passed()
    ensures { PassesFrames }
{}
