//! How many configurations have each end and each piece of a report, the first of them, and what one of them prints.
#![tactic(auto)]

pub mod counting;
pub mod counts;
pub mod first;
pub mod law;
pub mod listed;
pub mod output;
pub mod text;

pub use counting::count_of;
pub use counts::{Counted, Counts, count_report};
pub use first::firsts;
pub use law::counts_add_up;
pub use listed::{Listed, list_report};
pub use output::output_text;
pub use text::{counts_text, listed_text};
