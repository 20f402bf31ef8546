//! The work of the commands that link a program: `run`, `load`, `verify`, `replay` and `trace`.
#![tactic(auto)]

mod load;
mod retell;
mod run;
mod verify;
mod words;

pub use load::load_text;
pub use retell::retold;
pub use run::run_text;
pub use verify::verification;
pub use words::{LoadWords, RetellWords, Retelling, RunWords, VerifyWords};
