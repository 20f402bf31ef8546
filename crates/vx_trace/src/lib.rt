//! The trace of one configuration: the exception by which its run ends, as a Java machine prints it, with the frames in which it was
//! made, and its causes.
#![tactic(auto)]

mod causes;
mod common;
mod frame;
mod origin;
mod shown;
mod throwable;
mod tracing;

pub use tracing::trace_text;
