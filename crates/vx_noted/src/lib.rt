//! What a trace is made of: the frames that a throwable has noted as it was made, and the object that leaves a run. A run is made
//! again for each of them, so the machine keeps nothing.
#![tactic(auto)]

mod beginning;
mod frames;
mod leaving;
mod noting;
mod running;
mod wrapping;

pub use frames::Standing;
pub use leaving::Left;
pub use running::{noted, what_leaves};
