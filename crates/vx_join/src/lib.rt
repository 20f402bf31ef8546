//! One report out of several: at each configuration it says what the first of them says in which the configuration has an end.
#![tactic(auto)]

mod collecting;
mod copies;
mod entry;
mod joining;
mod lines;

pub use joining::{join, join_text};
