//! What runs have come to, each with the configurations that have it: the texts that a round wrote, ends, numbers of
//! attempts.
#![tactic(auto)]

pub mod piece;
pub mod ranked;
pub mod shared;

pub use piece::Piece;
pub use ranked::Ranked;
pub use shared::{Shared, add};
