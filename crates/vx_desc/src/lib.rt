//! Names and descriptors of classes, fields and methods (JVMS 4.2 and 4.3).
#![tactic(auto)]

mod java_type;
mod names;
mod reading;

pub use java_type::{Base, DescFault, Descriptor, JavaType};
pub use names::{is_class_name, is_clinit, is_field_name, is_init, is_method_name};
pub use reading::{
    argument_slots, field_type, is_field_descriptor, is_method_descriptor, method_slots,
    read_descriptor, returns_nothing,
};
