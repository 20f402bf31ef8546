//! Reading class files.
#![tactic(auto)]

mod class_file;
mod code;
mod flags;
mod members;
mod methods;
mod numbers;
mod reading;

pub use class_file::{Catch, ClassFile, Code, Field, Method};
pub use flags::{ABSTRACT, INTERFACE, NATIVE, STATIC, has};
pub use reading::read_class;
pub use vx_pool::ClassFault;
