//! Ancestors of places, where each place has a list of parents: whether a place is its own ancestor.
#![tactic(auto)]

mod ancestry;
mod below;
mod numbering;
mod ranks;
mod ways;

pub use ancestry::Ancestry;
