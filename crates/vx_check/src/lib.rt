//! Whether each configuration of a report ends as it should: by itself, or as a text of expectations says.
#![tactic(auto)]

pub mod checking;
pub mod ended;
pub mod ends;
pub mod expected;
pub mod finding;
pub mod law;
pub mod text;
pub mod told;

pub use checking::check_report;
pub use expected::{Expectation, read_expected};
pub use law::given_rules_are_right;
pub use text::checked_text;
pub use told::Checked;
