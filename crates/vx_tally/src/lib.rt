//! Numbers of attempts: a number at each configuration as a diagram whose edges have numbers (Lai and Sastry 1992). Adding one is one addition, nothing is
//! ever restricted, a join chooses by two sets, and the sets of single numbers are made where they are asked for. They hold over every space.
#![tactic(auto)]

mod choosing;
pub mod counted;
mod greatest;
pub mod laws;
mod listing;
mod made;
mod memo;
pub mod node;
mod parts;
mod reached;
pub mod tally;

pub use counted::Counted;
pub use laws::equal_numbers_are_one_edge;
pub use node::{Edge, TallyNode};
pub use tally::Tally;
