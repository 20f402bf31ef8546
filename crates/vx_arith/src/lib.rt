//! The family of numbers and jumps: arithmetic, comparisons, narrowings, jumps and switches (JVMS 6.5).
#![tactic(auto)]

mod attempting;
mod family;
mod jumping;
mod numbers;
mod operands;
mod spot;

pub use attempting::attempt;
pub use family::is_of_numbers;
pub use jumping::branch_by;
pub use spot::{Spot, spot_at};
