//! The clone of arrays (JVMS 6.5 invokevirtual, JLS 10.7): each array that a receiver names is copied in just the configurations in which it is the
//! receiver.
#![tactic(auto)]

pub mod attempting;
pub mod cloning;

pub use attempting::clone_arrays;
