//! What each instruction needs and gives, and where it leads (JVMS 4.10.1.9).
#![tactic(auto)]

mod arrays;
mod calls;
mod constants;
mod fields;
mod pool;
mod returns;
mod rows;
mod targets;
mod wants;

pub use pool::{class_name_at, current_class};
pub use rows::row_of;
pub use targets::targets_of;
pub use wants::{is_of, meets};
