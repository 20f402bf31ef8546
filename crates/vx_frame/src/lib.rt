//! Frames of the machine whose locals and operands depend on the configuration.
#![tactic(auto)]

pub mod frame;

pub use frame::Frame;
