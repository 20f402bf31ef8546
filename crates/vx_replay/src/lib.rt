//! The run of one configuration on the plain machine: its output, its end, the attempts that it has used, and where its frames
//! stand at the end.
#![tactic(auto)]

mod attempting;
mod natives;
mod pieces;
mod replaying;
mod running;
mod text;

pub use attempting::{Attempted, Written, attempt, carried_out, led};
pub use pieces::PlainPiece;
pub use replaying::run_text;
pub use running::{Place, Replay, run_alone};
pub use text::{line_of, replay_text};
