//! The law of joins: of reports of one program's runs the join is one.
#![tactic(auto)]

pub mod laws;

pub use laws::{joins_are_runs, reported_are_runs};
