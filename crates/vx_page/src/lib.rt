//! The page of a report: one file for a browser, which holds the report's text.
#![tactic(auto)]

mod back;
mod escapes;
mod front;
pub mod law;
pub mod page;
mod parts;

pub use law::page_is_read_back;
pub use page::write_page;
