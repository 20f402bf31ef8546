//! Native methods carried out for a group that stands at a call: what each does by its behaviour, at all configurations (the class library of
//! Java SE 7).
#![tactic(auto)]

pub mod attempting;
mod doing;
mod effects;
mod numbers;
mod questions;
mod values;

pub use attempting::native;
