//! Arithmetic, conversions, comparisons and jumps of the plain machine (JVMS 6.5): what each makes of plain operands, and its row.
#![tactic(auto)]

mod answer;
mod numbers;
mod rows;

pub use answer::jump;
pub use rows::{if_same, row_of_one, row_of_two};
