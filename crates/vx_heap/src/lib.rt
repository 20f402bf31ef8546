//! The shared heap of all configurations: objects, static fields and initialisation states, each with its value at each
//! configuration, and the table of texts.
#![tactic(auto)]

pub mod cell_list;
mod defaults;
pub mod heap;
mod lifted;
pub mod object;

pub use heap::Heap;
pub use object::HeapObject;
