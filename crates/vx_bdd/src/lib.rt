//! Sets of configurations as reduced ordered diagrams (Bryant 1986).
#![tactic(auto)]

mod apply;
mod cache;
mod compaction;
mod marks;
mod node;
pub mod space;
mod table;

pub use space::BddSpace;
