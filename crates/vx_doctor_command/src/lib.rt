//! The work of the command `doctor`: it reads what `run` reads, links the classes, and tells what a person wants to know before a run: what
//! is refused and why, or what the model and the program have and lack.
#![tactic(auto)]

mod doctor;
mod reading;
mod saying;
mod words;

pub use doctor::doctor_of;
pub use words::DoctorWords;
