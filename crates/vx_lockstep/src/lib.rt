//! What all runs have come to, and the laws by which rounds of the first key keep up with lockstep.
#![tactic(auto)]

pub mod findings;

pub use findings::Findings;
