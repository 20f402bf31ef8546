//! What every run of the ordinary machine keeps: where its frames stand, and that a report can spell what it writes and how it
//! ends.
#![tactic(auto)]

pub mod laws;

pub use laws::{ends_are_spelled, frames_stand, linked_are_sound, reports_are_spelled};
