//! Operations on sets that give up where they would be too much work.
#![tactic(auto)]

pub mod bounded;
pub mod pairs;
pub mod work;

pub use bounded::{and_within, minus_within, or_within};
pub use work::Work;
