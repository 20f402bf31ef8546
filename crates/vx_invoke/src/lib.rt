//! The family of calls (JVMS 6.5 invokestatic, invokespecial, invokevirtual, invokeinterface, Java SE 8): what the name comes to is the
//! same in all runs; then the operands are judged, and a group is divided by the methods that its receivers select.
#![tactic(auto)]

mod arguments;
pub mod call;
mod entering;
mod instances;
pub mod invoking;
mod statics;
pub mod target;
mod unresolved;

pub use call::Call;
pub use invoking::attempt;
pub use target::Target;
