//! Why classes do not link, as a person is told of it: the parents that are missing beside their children, the files of a class that is
//! there twice, the classes with a `main`, the fields that an option can have.
#![tactic(auto)]

mod outline;
mod parents;
mod refusal;

pub use outline::{Outline, outlines};
pub use refusal::{Sought, put_link_refusal};
