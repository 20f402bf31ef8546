//! Linked programs: their classes, methods and fields, numbered through, and the definitions of linking, of resolution and of the
//! core classes (JVMS 5.3, 5.4).
#![tactic(auto)]

pub mod access_flags;
pub mod class_list;
pub mod class_names;
pub mod core_list;
pub mod fault;
mod member_keys;
pub mod member_list;
pub mod program;
pub mod shared_name;
pub mod sought;

pub use access_flags::AccessFlags;
pub use class_list::{ClassList, Run};
pub use class_names::class_name;
pub use core_list::CoreList;
pub use fault::LinkFault;
pub use member_list::{Member, MemberList};
pub use program::{LinkedClass, LinkedField, LinkedMethod, Program};
pub use shared_name::SharedName;
pub use sought::Sought;
