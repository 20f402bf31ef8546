//! The row of the instruction table of the plain machine at a state (JVMS 6.5).
#![tactic(auto)]

mod attempt;
mod objects;
mod operations;

pub use attempt::{code_on_top, pool_of, row};
