//! Texts as units of UTF-16 (JVMS 4.4.7, and the class library of Java SE 7): what methods of strings and builders ask of them and make of them.
//! Each call is what the ordinary machine says of the units.
#![tactic(auto)]

mod asking;
mod making;
mod numbers;
mod searching;

pub use asking::{difference, hash};
pub use making::{bool_units, dotted, joined, of_bytes, of_length, reversed, without_unit};
pub use numbers::{decimal, int_in};
pub use searching::{ends_with, place_of, place_of_point};
