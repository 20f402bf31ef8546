//! Effects of native methods, carried out in the configurations of a condition (the class library of Java SE 7).
#![tactic(auto)]

mod carrying;
mod changing;
mod copying;
mod giving;

pub use carrying::carry;
