//! Agreement: the configurations at which two reports say the same.
#![tactic(auto)]

pub mod ends;
pub mod moving;
pub mod options;
pub mod output;
pub mod reached;
pub mod reports;
pub mod taking;
pub mod text;
pub mod texts;

pub use options::have_same_options;
pub use reports::agreement;
pub use text::agreement_text;
