//! What is under way in a round, and the places that the outcomes of an attempt take in it.
#![tactic(auto)]

pub mod placing;
pub mod round;

pub use placing::place_all;
pub use round::{Round, Setting};
