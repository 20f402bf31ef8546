//! The laws of groups on which the schedule and a compaction rest.
#![tactic(auto)]

pub mod laws;

pub use laws::{groups_are_kept, is_same_key};
