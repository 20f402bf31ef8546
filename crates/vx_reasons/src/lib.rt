//! Why a class file, a model or a source is refused, in words.
#![tactic(auto)]

mod sentences;

pub use sentences::{Form, sentence};
