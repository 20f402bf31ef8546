//! Feature models: options, the fields that hold them, and rules; their text; and the configurations that they allow.
#![tactic(auto)]

mod configurations;
mod expr;
mod fault;
mod law;
mod model;
mod rule;
mod statement;
mod text;
mod token;

pub use configurations::allowed;
pub use expr::{Expr, Form};
pub use fault::ModelFault;
pub use law::rules_are_the_grammar;
pub use model::{FieldPlace, Model, OptionField};
pub use statement::{Refusal, begins_comment, is_taken, slashed};
pub use text::{fault_at, read_model};
