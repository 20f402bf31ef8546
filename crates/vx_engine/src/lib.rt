//! Whole runs of all configurations at once, also a number of rounds at a time.
#![tactic(auto)]

pub mod running;

pub use running::{findings_of, make_rounds, run_with};
