//! Texts spelled out: units of UTF-16 as bytes of UTF-8, and the names of classes.
#![tactic(auto)]

mod classes;
mod units;

pub use classes::class_text;
pub use units::utf8;
