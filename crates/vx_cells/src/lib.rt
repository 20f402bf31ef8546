//! Cells of conditional objects at conditional places: reading through them, writing through them, and what comes of places
//! that are no cells.
#![tactic(auto)]

pub mod place;
pub mod reading;
pub mod refusing;
pub mod rooms;
pub mod writing;

pub use place::{Place, place_if};
pub use reading::{given_at, read_through};
pub use refusing::{Refusals, passes_at, refusals_of, with_answer};
pub use rooms::where_room;
pub use writing::{write_inside, write_through};
