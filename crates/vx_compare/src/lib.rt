//! Where two reports differ, told for people: also reports whose options are not the same.
#![tactic(auto)]

pub mod comparing;
pub mod lines;
pub mod names;
pub mod text;
pub mod ways;
pub mod wide;

pub use comparing::{Compared, compare};
pub use names::all_names;
pub use text::compared_text;
pub use wide::widened;
