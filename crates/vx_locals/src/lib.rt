//! The instructions of constants and local variables (JVMS 2.6.1, 6.5): nop, constants, those of the pool too, loads, stores
//! and iinc.
#![tactic(auto)]

pub mod constant;
mod constants;
mod entries;
pub mod family;
mod increasing;
mod loading;
mod storing;
mod writing;

pub use family::{attempt, is_of_locals};
