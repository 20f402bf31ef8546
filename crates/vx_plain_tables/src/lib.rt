//! What the entries of pools come to in a program, found once, what an instruction sees with it, and the objects with which fields
//! and heaps begin.
#![tactic(auto)]

mod cells;
mod seen;
mod tables;

pub use cells::{cells_of, new_object, value_of_slot};
pub use seen::{Seen, descriptor_in, signature_in};
pub use tables::Tables;
