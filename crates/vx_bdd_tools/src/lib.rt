//! Tools over the sets of any space: their nodes as a list, their options, a member.
#![tactic(auto)]

pub mod member;
pub mod node;
pub mod numbering;
pub mod options;
pub mod sets;

pub use member::one_of;
pub use node::{Node, NodeList};
pub use numbering::listing;
pub use options::support;
pub use sets::{set_of, sets_of};
