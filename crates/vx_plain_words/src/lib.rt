//! Local variables and the stack forms of the plain machine (JVMS 2.6.1, 2.6.2, 6.5).
#![tactic(auto)]

mod forms;
mod locals;

pub use forms::stack;
pub use locals::{increase, load, store};
