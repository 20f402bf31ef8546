//! Throwing in the plain machine: the exception object, and the unwinding of frames (JVMS 2.10, 5.5).
#![tactic(auto)]

mod handling;
mod making;
mod next;
mod throwing;
mod unwinding;

pub use making::exception;
pub use next::Next;
pub use throwing::{raise, throw};
pub use unwinding::{handler_on_top, pass};
