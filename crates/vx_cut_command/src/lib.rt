//! The work of the command `cut`, which reads a model and perhaps a report of it.
#![tactic(auto)]

mod cut;
mod words;

pub use cut::cutting;
pub use words::{Chosen, CutWords};
