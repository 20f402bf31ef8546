//! The family of stack forms: words of operands that are dropped, doubled or that change places (JVMS 6.5 pop, pop2, dup,
//! dup_x1, dup_x2, dup2, dup2_x1, dup2_x2, swap).
#![tactic(auto)]

pub mod cut;
mod cutting;
mod forming;
pub mod order;
mod reordering;

pub use forming::attempt;
