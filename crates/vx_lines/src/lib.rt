//! Line tables: where the bytes of a class file say on which line of source the code of its methods stands, and of which file.
#![tactic(auto)]

mod reading;
mod rows;
mod sources;
mod table;

pub use reading::read_lines;
pub use sources::read_source;
pub use table::{LineRow, LineTable, MethodLines};
