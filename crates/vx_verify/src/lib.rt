//! The verifier: whether each method of a program has a typing, by inference (JVMS 4.10.2). Stack map tables are not looked at.
#![tactic(auto)]

mod inference;
mod known_rows;
mod quiet;
pub mod rows;
pub mod start;
pub mod store;
mod type_keys;
mod verdict;

pub use verdict::{Verdict, verify};
