//! The state with which all runs begin.
#![tactic(auto)]

pub mod starting;

pub use starting::start;
