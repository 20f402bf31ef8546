//! Constants, fields and new objects of the plain machine.
#![tactic(auto)]

mod constants;
mod fields;
mod instances;
mod loading;
mod storing;

pub use constants::push_entry;
pub use fields::{Use, row_of_field};
pub use instances::new_instance;
