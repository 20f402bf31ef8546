//! The list of the core classes.

use vx_class::ClassFile;
use vx_list::Items;

/// The core classes, in their order: the part of the class library that a program may use.
#[derive(Drop)]
pub struct CoreList {
    pub classes: Items<ClassFile>,
    /// For each class and each of its methods the number of a native one, and 0 for another.
    pub natives: Items<Items<u32>>,
}
