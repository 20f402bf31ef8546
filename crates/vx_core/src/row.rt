//! How the table of the core classes writes a class down: its members, what its bodies name, and the bodies as instructions. Names are
//! texts, and what a body names is a place among the references of its class.

/// A class or an interface, of major version 51.
#[derive(Clone, Copy)]
pub struct ClassRow<'a> {
    pub name: &'a str,
    pub superclass: Option<&'a str>,
    pub interfaces: &'a [&'a str],
    pub flags: u16,
    pub fields: &'a [FieldRow<'a>],
    pub methods: &'a [MethodRow<'a>],
    /// What the bodies name.
    pub references: &'a [Reference<'a>],
}

/// A field, without a constant.
#[derive(Clone, Copy)]
pub struct FieldRow<'a> {
    pub name: &'a str,
    pub descriptor: &'a str,
    pub flags: u16,
}

/// A method.
#[derive(Clone, Copy)]
pub struct MethodRow<'a> {
    pub name: &'a str,
    pub descriptor: &'a str,
    pub flags: u16,
    pub how: How<'a>,
}

/// How a method is carried out.
#[derive(Clone, Copy)]
pub enum How<'a> {
    /// By the native method of this number.
    Native(u32),
    /// Not at all: it ends the run, or is abstract.
    Nothing,
    /// By its code: the greatest stack, the number of locals and the instructions.
    Body(u16, u16, &'a [Instruction]),
}

/// An instruction of a body (JVMS 6.5).
#[derive(Clone, Copy)]
pub enum Instruction {
    /// An opcode alone.
    Plain(u8),
    /// An opcode with the distance of its jump.
    Jump(u8, u16),
    /// An opcode with the place of a reference.
    Naming(u8, u16),
    /// `ldc` of the reference at a place.
    Ldc(u16),
}

/// What a body names.
#[derive(Clone, Copy)]
pub enum Reference<'a> {
    Class(&'a str),
    Text(&'a str),
    /// A method by its class, its name and its descriptor.
    Method(&'a str, &'a str, &'a str),
}
