//! What the commands stand on: how a call ends and the line of it, and plans, which say what is asked of the files and what comes
//! of the answers.
#![tactic(auto)]

mod answer;
mod line;
mod status;

pub use answer::{Answer, done};
pub use line::put_line;
pub use status::Status;
