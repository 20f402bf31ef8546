//! Which methods calls from main lead to, by the names and descriptors of what is called. What is told of a program is ordered by it, and
//! nothing else rests on it.
#![tactic(auto)]

mod calls;
mod names;
mod search;

pub use search::reached;
