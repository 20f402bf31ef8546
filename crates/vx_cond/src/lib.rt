//! Values that depend on the configuration: one value as ascending leaves with conditions, rows of them, and what all
//! containers of conditions have in common. They hold over every space.
#![tactic(auto)]

pub mod cond;
mod leaves;
pub mod projects;
pub mod row;

pub use cond::{Cond, Leaf};
pub use projects::Projects;
pub use row::Row;
