//! The initialisation of a class, begun in all configurations of a group at once: how far the classes that have not begun go up is asked
//! at each configuration, they are marked, and the group gets a frame for each of them (JVMS 5.5).
#![tactic(auto)]

pub mod beginning;
mod marking;
pub mod pushing;
pub mod rise;
mod rising;
mod upward;

pub use beginning::begin;
pub use pushing::push_chain;
pub use rise::Rise;
