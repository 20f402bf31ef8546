//! What one instruction makes of the types before it, on types that a caller can name (JVMS 4.10.1.9, 4.10.2.2).
#![tactic(auto)]

mod flowing;
mod law;
mod numbering;
mod reading;
mod types;

pub use flowing::flow;
pub use law::typings_flow;
pub use types::{Flow, VerState};
