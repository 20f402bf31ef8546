//! What a report is asked for by people and by tools, as texts; and that the configurations in these texts are read again.
#![tactic(auto)]

pub mod law;
pub mod telling;

pub use law::configurations_are_read_back;
pub use telling::{Telling, told};
