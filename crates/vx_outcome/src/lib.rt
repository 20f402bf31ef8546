//! What an attempt of a group comes to: outcomes whose conditions divide the group's path.
#![tactic(auto)]

pub mod outcome;

pub use outcome::{Outcome, Outcomes};
