//! Reports read from their text: each line is taken where it may follow those before it, and the first that may not is
//! the fault.
#![tactic(auto)]

mod again;
mod body;
mod front;
mod reading;
mod stage;

pub use again::read_written;
pub use front::no_front_is_a_report;
pub use reading::{ReportFault, read_report};
