//! Calls and returns of the plain machine (JVMS 2.6).
#![tactic(auto)]

mod arguments;
mod entering;
mod instances;
mod invoking;
mod returning;
mod statics;

pub use invoking::invoke;
pub use returning::return_from;
