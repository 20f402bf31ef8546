//! What a feature model asks, as a person is told of it: its options with their fields, how many configurations it allows, and
//! which comments of a DIMACS text are no name lines, though they begin as one does.
#![tactic(auto)]

mod law;
mod overview;
mod remarks;

pub use law::remarks_are_exact;
pub use overview::put_overview;
pub use remarks::{Remark, put_remarks};
