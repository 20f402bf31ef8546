//! Cuts of a feature model: models as texts that divide what it allows, by some of its options.
#![tactic(auto)]

mod choosing;
mod cutting;
mod lines;
mod parts;
mod ranks;
mod text;

pub use choosing::choice_of;
pub use cutting::{CutFault, cut_text};
