//! The order of ends: it is total, and ends that compare equal are one.
#![tactic(auto)]

pub mod laws;

pub use laws::ends_are_ordered;
