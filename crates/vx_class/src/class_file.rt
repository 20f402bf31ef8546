//! What a class file says (JVMS 4.1): its parts, without the attributes that are passed over.

use vx_list::Items;
use vx_pool::Pool;

/// A class or interface. Names and classes are indices of the pool.
#[derive(Debug, Drop)]
pub struct ClassFile {
    pub minor: u16,
    pub major: u16,
    pub pool: Pool,
    pub flags: u16,
    pub this_class: u16,
    pub super_class: u16,
    pub interfaces: Items<u16>,
    pub fields: Items<Field>,
    pub methods: Items<Method>,
}

/// A field (JVMS 4.5). `constant` is the index of the constant of a static field, or 0 for none.
#[derive(Clone, Copy, Debug, PartialEq, Eq)]
pub struct Field {
    pub flags: u16,
    pub name: u16,
    pub descriptor: u16,
    pub constant: u16,
}

/// A method (JVMS 4.6). It has code unless it is abstract or native; `<clinit>` always has.
#[derive(Debug, Drop)]
pub struct Method {
    pub flags: u16,
    pub name: u16,
    pub descriptor: u16,
    pub code: Option<Code>,
}

/// The code of a method (JVMS 4.7.3), from 1 to 65,535 bytes.
#[derive(Debug, Drop)]
pub struct Code {
    pub max_stack: u16,
    pub max_locals: u16,
    pub bytes: Items<u8>,
    pub catches: Items<Catch>,
}

/// A row of the exception table, for the places of the code from `start` up to `end`. `class` is 0 where it takes every
/// object.
#[derive(Clone, Copy, Debug, PartialEq, Eq)]
pub struct Catch {
    pub start: u16,
    pub end: u16,
    pub handler: u16,
    pub class: u16,
}
