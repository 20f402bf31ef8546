//! The report of whole runs: each set of configurations as a node of one list, and the text.
#![tactic(auto)]

mod lines;
pub mod reporting;

pub use reporting::{found_report, report_findings};
