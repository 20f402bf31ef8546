//! The summary of a report: how large it is, and what its runs write with all options on and with none.
#![tactic(auto)]

pub mod summary;

pub use summary::summary_text;
