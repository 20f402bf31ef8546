//! What may end a run of a program as unsupported, as a person is told of it: what is lacking, most frequent first, and where.
#![tactic(auto)]

mod entries;
mod kinds;
mod law;
mod parts;
mod ranks;
mod reasons;

pub use entries::Entry;
pub use law::ends_are_told;
pub use parts::spots_text;
pub use ranks::Rank;
