//! The family of returns (JVMS 2.6.4, 6.5 ireturn, lreturn, areturn, return): the value is judged, the frame on top is taken off, and
//! its caller goes on.
#![tactic(auto)]

mod leaving;
pub mod receiving;
mod returning;
mod sorts;

pub use returning::attempt;
