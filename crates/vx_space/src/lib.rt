//! Sets of configurations, each with one id: what a space of them offers, and the space of at most six options.
#![tactic(auto)]

pub mod config;
pub mod mask;
pub mod space;

pub use config::Config;
pub use mask::MaskSpace;
pub use space::{Space, SpaceFault};
