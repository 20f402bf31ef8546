//! The constant pool (JVMS 4.4).

use crate::utf8::Utf8;
use vx_list::Items;

/// An entry of the pool, by its tag. The numbers are those of the file, so they may name no entry.
#[derive(Debug, Drop)]
pub enum Entry {
    /// Place 0, and the second index of a `Long` or `Double`.
    Unusable,
    Utf8(Utf8),
    Integer(i32),
    Float(u32),
    Long(i64),
    Double(u64),
    Class(u16),
    /// A string literal (the tag String).
    Text(u16),
    Field(u16, u16),
    Method(u16, u16),
    InterfaceMethod(u16, u16),
    NameAndType(u16, u16),
    MethodHandle(u8, u16),
    MethodType(u16),
    InvokeDynamic(u16, u16),
}

/// The entries in their order: the entry of an index stands at that place, and place 0 is unusable.
#[derive(Debug, Drop)]
pub struct Pool {
    pub entries: Items<Entry>,
}
