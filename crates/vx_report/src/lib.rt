//! Reports of runs: their lines, written in their one spelling, read back, and projected at a configuration. A report
//! says what was written and how the runs ended, each with the set of its configurations as a node of one diagram.
#![tactic(auto)]

pub mod line;
pub mod meaning;
mod projection;
mod report;
mod spelling;
mod writing;

pub use projection::project_text;
pub use report::{AttemptLine, EndLine, Piece, Report, name_of};
pub use spelling::put_spelled;
pub use writing::{put_end, put_nodes, put_options, word_of_stream, write_report};
