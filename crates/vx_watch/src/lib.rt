//! How far runs have come, told while they are made.
#![tactic(auto)]

pub mod progress;
pub mod running;
pub mod telling;

pub use progress::{Progress, progress_of};
pub use running::run_watched;
pub use telling::tell;
