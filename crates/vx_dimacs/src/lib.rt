//! Feature models as DIMACS CNF: variables with names, and clauses.
#![tactic(auto)]

mod draft;
mod line;
mod number;
mod text;

pub use text::read_dimacs;
