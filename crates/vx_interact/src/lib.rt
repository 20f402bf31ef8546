//! Interactions: on which options each piece and each end of a report depends.
#![tactic(auto)]

pub mod bits;
pub mod interaction;
pub mod text;

pub use interaction::{Interaction, interactions};
pub use text::interactions_text;
