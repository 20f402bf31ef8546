//! What may end a run of a program as unsupported: each instruction at which an attempt can come to something that is left out,
//! with what that is.
#![tactic(auto)]

mod calls;
mod classes;
mod fields;
mod instructions;
mod lack;
mod law;
mod listing;

pub use lack::{Lack, Spot, When};
pub use law::all_listed;
pub use listing::spots;
