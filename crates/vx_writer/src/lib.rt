//! Writing class files.
#![tactic(auto)]

mod class;
mod code;
mod members;
mod numbers;
mod pool;

pub use class::write_class;
pub use numbers::{put, put_count, put_length, put_u1, put_u4};
