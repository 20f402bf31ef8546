//! Frames that groups get and lose, and what stands then at each configuration: the frame of a method that begins is pushed, and the frame
//! on top is taken off, by a return or by an exception that passes it.
#![tactic(auto)]

pub mod beginning;
pub mod entering;
pub mod fitting;
mod locals;
pub mod uncovering;
pub mod unwinding;
pub mod waking;

pub use beginning::{begun, max_locals};
pub use entering::{MOST_FRAMES, entered};
pub use fitting::matching_are_arguments;
pub use uncovering::uncovered;
pub use unwinding::frames_are_passed;
pub use waking::woken;
