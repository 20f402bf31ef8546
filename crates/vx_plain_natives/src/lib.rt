//! The native methods of the core classes over the plain state of one configuration (the class library of Java SE 7). Those of strings and
//! builders stand in a crate of their own.
#![tactic(auto)]

mod arguments;
mod boxes;
mod carrying;
mod cells;
mod copying;
mod objects;
mod printing;
mod table;

pub use carrying::carry_out;
