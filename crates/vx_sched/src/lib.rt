//! The schedule: which group makes the next attempt, and where a group is placed among those that wait. Groups of one key
//! are joined, so that no two groups stand at one key.
#![tactic(auto)]

pub mod picker;
pub mod placing;
pub mod waiting;

pub use picker::{LeastKey, Picker};
pub use placing::{keys_of, place_group};
pub use waiting::Waiting;
