//! The family of objects: new ones, their fields and classes, monitors, and references compared (JVMS 6.5).
#![tactic(auto)]

pub mod attempting;
mod casting;
mod comparing;
mod family;
mod fields;
mod instances;
mod making;

pub use attempting::attempt;
pub use comparing::same_slots;
pub use family::is_of_objects;
