//! What the references of instructions come to in a program alone, the same at each configuration: a field's (JVMS 5.4.3.2) and a
//! call's (JVMS 5.4.3.3, 5.4.3.4), with what descriptors say; the classes of arrays by the elements that instructions name, and which
//! lengths arrays may have; and a table of the classes that the entries of pools name, which is made once.
#![tactic(auto)]

pub mod arrays;
pub mod calls;
pub mod fields;
pub mod lengths;
pub mod members;
pub mod named;
pub mod signatures;

pub use calls::{
    MethodReference, is_private, is_static, member_text, method_name, method_reference,
};
pub use fields::{FieldReference, field_reference, field_text, sort_of};
pub use members::named_member;
pub use named::{class_table, owner_entry};
pub use signatures::{signature, signature_of_method};
