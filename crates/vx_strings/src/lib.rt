//! Native methods of String, StringBuilder and PrintStream: what they do by texts, at one configuration (the class library of Java SE 7).
#![tactic(auto)]

mod changes;
mod makers;
mod printing;
mod questions;
pub mod spelling;

pub use changes::{changed, initialised};
pub use makers::{give_short, made};
pub use printing::printed;
pub use questions::{asked, give_bool, give_int, refuse};
pub use spelling::{SpelledText, spelled};
