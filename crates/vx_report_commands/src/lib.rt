//! The work of the commands that read reports, `project`, `output`, `agree`, `join` and those that tell of one, and of `asm`.
#![tactic(auto)]

mod agree;
mod assemble;
mod join;
mod output;
mod project;
mod tell;
mod words;

pub use agree::agreement_of;
pub use assemble::class_file;
pub use join::join_of;
pub use output::output_of;
pub use project::projection;
pub use tell::tale_of;
pub use words::{AgreeWords, JoinWords, OutputWords, ProjectWords, TellWords};
