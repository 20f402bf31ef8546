//! Groups: configurations whose runs stand at one key, with the frame on top, the attempts, and the frames below in a
//! tree that all groups share.
#![tactic(auto)]

pub mod callers;
pub mod group;
mod joins;
mod parts;
mod sweep;

pub use callers::{Caller, Callers};
pub use group::{Below, Group};
