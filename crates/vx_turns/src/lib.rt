//! The steps of a round around its attempt, the upkeep between rounds, and the laws of a whole round.
#![tactic(auto)]

pub mod turns;
pub mod upkeep;

pub use turns::{begin_round, end_round, spend};
pub use upkeep::{Upkeep, compact, sweep, tend};
