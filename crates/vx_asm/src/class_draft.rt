//! A class while the lines of its source are read.

use crate::signature_table::SignatureTable;
use vx_class::{Field, Method};
use vx_class_parts::ConstantTable;
use vx_code_parts::{Draft, Labels};
use vx_list::Items;
use vx_value::Name;

/// The part of the class that was begun last.
#[derive(Clone, Copy, Debug, PartialEq, Eq)]
pub enum Stage {
    Start,
    Version,
    Class,
    Fields,
    Methods,
}

/// A catch row, by the numbers of instructions. `class` is `None` where it takes every object.
#[derive(Debug, Drop)]
pub struct Covered {
    pub start: usize,
    pub end: usize,
    pub handler: usize,
    pub class: Option<Name>,
}

/// A method whose body is read. Name and descriptor are indices of the pool. So many of the labels were `passed`, and
/// `is_near` says that the constant of each `ldc` has an index of one byte.
#[derive(Drop)]
pub struct Body {
    pub flags: u16,
    pub name: u16,
    pub descriptor: u16,
    pub max_stack: u16,
    pub max_locals: u16,
    pub labels: Labels,
    pub passed: usize,
    pub drafts: Items<Draft>,
    pub rows: Items<Covered>,
    pub is_near: bool,
}

/// What the lines so far say of the class. Classes are indices of the pool.
#[derive(Drop)]
pub struct ClassDraft {
    pub stage: Stage,
    pub major: u16,
    pub flags: u16,
    pub this_class: u16,
    pub super_class: u16,
    pub pool: ConstantTable,
    pub interfaces: Items<u16>,
    pub fields: Items<Field>,
    pub field_signatures: SignatureTable,
    pub methods: Items<Method>,
    pub method_signatures: SignatureTable,
    pub body: Option<Body>,
}
