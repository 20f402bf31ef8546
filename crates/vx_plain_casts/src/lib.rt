//! Thrown objects, monitors and casts of the plain machine (JVMS 6.5 athrow, monitorenter, monitorexit, checkcast, instanceof).
#![tactic(auto)]

mod casts;
mod objects;

pub use casts::{check_cast, instance_of};
pub use objects::{monitor, object_in, throw_top};
