//! Classes of the plain machine that are made ready, and the beginning of their initialisation (JVMS 5.5).
#![tactic(auto)]

mod above;
mod beginning;
mod frames;
mod readying;

pub use beginning::begin;
pub use frames::{MOST_FRAMES, push_chain, too_many};
pub use readying::ready;
