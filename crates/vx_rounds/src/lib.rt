//! A round: the runs of one group make an attempt, and what it comes to takes its place.
#![tactic(auto)]

pub mod stepping;

pub use stepping::{make_round, next_round, step_group};
pub use vx_turns::Upkeep;
