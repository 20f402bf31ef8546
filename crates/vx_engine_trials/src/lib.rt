//! Programs of one class run whole over the space of masks, from an assembler source to the text of a report, with groups picked in two
//! orders. Over the space of diagrams the built program runs them.
#![tactic(auto)]

#[cfg(test)]
mod cases;
pub mod last_key;
pub mod programs;
#[cfg(test)]
mod runs;
#[cfg(test)]
mod tests;
