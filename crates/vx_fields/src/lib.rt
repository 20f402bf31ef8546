//! The family of static fields (getstatic, putstatic), and the field that any instruction of fields names, or what comes of it where there is none.
#![tactic(auto)]

mod operands;
pub mod statics;
pub mod unresolved;

pub use statics::{attempt, field_named};
