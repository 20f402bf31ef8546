//! The types of local variables and operands: which type a name says, which fits which, and what two have in common (JVMS 4.10.1.2,
//! 4.10.2.2). What each instruction needs and gives is defined here, with the law that it is monotone.
#![tactic(auto)]

mod fitting;
mod hierarchy;
mod law;
mod merging;
mod naming;
mod types;

pub use fitting::fits;
pub use hierarchy::object_class;
pub use law::{flow_is_monotone, ranks_are_ranked};
pub use merging::{common, element_copy, type_copy};
pub use naming::{arrays_over, class_type, object_type, ref_of, type_of};
pub use types::{ElementType, Row, VerType, Want};
