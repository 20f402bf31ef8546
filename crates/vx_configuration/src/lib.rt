//! The configuration that a word names, and whether a model allows a configuration.
#![tactic(auto)]

pub mod allowing;
pub mod configuration;

pub use allowing::is_allowed;
pub use configuration::{configuration_of, values_of};
