//! Exceptions: what a group throws goes down its frames until a handler takes it, each object by its class, or ends the runs (JVMS 2.10);
//! an initialisation that it leaves has failed (JVMS 5.5). And athrow.
#![tactic(auto)]

mod failing;
pub mod handling;
mod making;
mod raising;
pub mod throwing;
pub mod thrown;
mod uncaught;

pub use raising::raise;
pub use throwing::throw;
pub use thrown::attempt;
