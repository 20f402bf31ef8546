//! Explanations: for each piece and each end of a report the rule under which a configuration has it, and one that does.
#![tactic(auto)]

pub mod candidates;
pub mod explained;
pub mod law;
pub mod lengths;
pub mod literal;
pub mod literals;
pub mod parts;
pub mod rule;
pub mod terms;
pub mod text;

pub use candidates::rule_within;
pub use explained::{Asked, Explained, Explanation, Told, explain};
pub use law::rules_are_read_back;
pub use literal::Literal;
pub use rule::Rule;
pub use text::{explanation_text, put_rule};
