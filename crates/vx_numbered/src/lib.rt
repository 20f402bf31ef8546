//! Rows and stacks of numbers that share what they have in common: a row is a numbered tree over its places, and a stack a numbered chain. What
//! the numbers stand for is the caller's.
#![tactic(auto)]

mod chains;
mod numbers;
mod trees;

pub use chains::{Chains, EMPTY, Link};
pub use numbers::next_number;
pub use trees::{Pair, Trees};
