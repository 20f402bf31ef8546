//! What every run begins with, the same at each configuration but for the options: the first objects, the objects of string
//! literals and class names by the entries of pools, and the values of the static fields.
#![tactic(auto)]

pub mod core_classes;
pub mod defaults;
pub mod first;
mod inits;
pub mod literal;
mod literals;
pub mod objects;
mod remembered;
pub mod statics;
mod text_keys;
mod units;

pub use core_classes::CoreClasses;
pub use defaults::default_of;
pub use first::First;
pub use inits::first_inits;
pub use objects::FirstObject;
pub use statics::FirstStatic;
pub use units::units_of;
