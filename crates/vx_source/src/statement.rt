//! What the lines of a source say.

use vx_list::Items;
use vx_value::Name;

/// What stands behind a mnemonic.
#[derive(Debug, Drop)]
pub enum Operand {
    Nothing,
    /// The number of `bipush` and `sipush`, or the kind of array of `newarray`.
    Number(i32),
    /// A constant to load.
    Int(i32),
    Long(i64),
    /// The modified UTF-8 of a text, or `None` where the word is no text.
    Text(Option<Name>),
    Class(Name),
    Local(u16),
    Increment(u16, i16),
    /// A label.
    Jump(Name),
    Member(Member),
    Dimensions(Name, u8),
    Table(Table),
    Lookup(Lookup),
}

/// A field or method. `interface` says that the word `interface` stands before it.
#[derive(Debug, Drop)]
pub struct Member {
    pub interface: bool,
    pub class: Name,
    pub name: Name,
    pub descriptor: Name,
}

/// The labels of the keys from `low` on.
#[derive(Debug, Drop)]
pub struct Table {
    pub low: i32,
    pub fallback: Name,
    pub labels: Items<Name>,
}

#[derive(Debug, Drop)]
pub struct Case {
    pub key: i32,
    pub label: Name,
}

#[derive(Debug, Drop)]
pub struct Lookup {
    pub fallback: Name,
    pub cases: Items<Case>,
}

#[derive(Debug, Drop)]
pub struct Instruction {
    pub opcode: u8,
    pub wide: bool,
    pub operand: Operand,
}

#[derive(Debug, Drop)]
pub struct ClassLine {
    pub flags: u16,
    pub name: Name,
    pub super_class: Name,
}

/// The value of a field.
#[derive(Debug, Drop)]
pub enum Value {
    Nothing,
    Int(i32),
    Long(i64),
    /// The modified UTF-8 of a text, or `None` where the word is no text.
    Text(Option<Name>),
}

#[derive(Debug, Drop)]
pub struct FieldLine {
    pub flags: u16,
    pub name: Name,
    pub descriptor: Name,
    pub value: Value,
}

/// The room that a method's code has.
#[derive(Clone, Copy, Debug, PartialEq, Eq)]
pub struct Room {
    pub max_stack: u16,
    pub max_locals: u16,
}

#[derive(Debug, Drop)]
pub struct MethodLine {
    pub flags: u16,
    pub name: Name,
    pub descriptor: Name,
    pub room: Option<Room>,
}

/// Three labels, and the class that is caught, or `None` for any.
#[derive(Debug, Drop)]
pub struct CatchLine {
    pub start: Name,
    pub end: Name,
    pub handler: Name,
    pub class: Option<Name>,
}

#[derive(Debug, Drop)]
pub enum Statement {
    Version(u16),
    Class(ClassLine),
    Implements(Name),
    Field(FieldLine),
    Method(MethodLine),
    End,
    Label(Name),
    Catch(CatchLine),
    Instruction(Instruction),
}
