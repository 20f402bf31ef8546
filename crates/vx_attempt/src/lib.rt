//! One attempt of a group: its instruction by the family that it belongs to, native methods carried out, and exceptions thrown.
#![tactic(auto)]

pub mod attempting;
pub mod family;
mod natives;
mod throwing;

pub use attempting::attempt;
