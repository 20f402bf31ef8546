//! The work of the commands `check` and `compare`, each of which ends with a status of its own where a configuration fails, or is told
//! differently.
#![tactic(auto)]

mod check;
mod compare;
mod words;

pub use check::check_of;
pub use compare::compare_of;
pub use words::{CheckWords, CompareWords};
