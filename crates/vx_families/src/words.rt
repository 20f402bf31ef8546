//! The numbers of the words for how a run ends outside the accepted language; reports spell the words.

/// A float or a double is used.
pub const FLOAT_WORD: u8 = 1;

/// A constant is loaded that is a method handle or a method type.
pub const CONSTANT_WORD: u8 = 4;

/// A native method is called that the machine doesn't have.
pub const NATIVE_WORD: u8 = 5;

/// A class is used that the program doesn't have.
pub const CLASS_WORD: u8 = 6;

/// A field is used that its class doesn't have.
pub const FIELD_WORD: u8 = 7;

/// A method is called that its class doesn't have.
pub const METHOD_WORD: u8 = 8;
