//! The start of a run of the plain machine (JVMS 5.2).
#![tactic(auto)]

mod beginning;
mod first;

pub use beginning::begin_main;
pub use first::before_main;
