//! The state of all runs side by side and what stands in it at each configuration; what an attempt and a round promise.
#![tactic(auto)]

pub mod state;

pub use state::{State, sets_out};
