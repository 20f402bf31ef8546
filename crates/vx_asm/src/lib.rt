//! Assembling a source: the walk over its lines, and the class that they name.
#![tactic(auto)]

mod bodies;
mod class_draft;
mod ends;
mod fault;
mod fields;
mod methods;
mod parts;
mod pushing;
mod signature_table;
mod source;

pub use class_draft::{Body, ClassDraft, Covered, Stage};
pub use fault::AsmFault;
pub use signature_table::{Signature, SignatureTable};
pub use source::assemble;
