//! The lines of a report, each read by itself; the numbering of its nodes, judged where a node is named; and a table of
//! nodes.
#![tactic(auto)]

mod lines;
mod numbering;
mod parsing;
pub mod table;
pub mod words;

pub use lines::first_line;
pub use numbering::number_from;
pub use parsing::line_in;
