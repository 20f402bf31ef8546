//! The family of arrays: new ones and grids, their elements and lengths (JVMS 6.5).
#![tactic(auto)]

pub mod attempting;
pub mod classes;
mod elements;
mod family;
mod grids;
mod lengths;
mod loading;
mod making;
mod storing;

pub use attempting::attempt;
pub use family::is_of_arrays;
