//! Covers: a few configurations in which each piece and each end of a report stands.
#![tactic(auto)]

pub mod blocks;
pub mod covering;
pub mod scope;
pub mod target;
pub mod text;
pub mod tries;
pub mod trying;

pub use covering::cover;
pub use scope::{ended, first_ends};
pub use text::{cover_text, put_configuration};
pub use tries::Try;
