//! What native methods do at one configuration.

use vx_group_states::Answer;
use vx_value::{Slot, Stream};

/// What a native method raises: a core class, without a message.
#[derive(Clone, Copy)]
pub enum Exception {
    /// NullPointerException.
    Null,
    /// StringIndexOutOfBoundsException.
    BadIndex,
    /// NumberFormatException.
    BadNumber,
    /// OutOfMemoryError.
    Memory,
    /// NegativeArraySizeException.
    NegativeSize,
    /// ArrayStoreException.
    Store,
    /// ArrayIndexOutOfBoundsException.
    Outside,
}

/// What a native method does at one configuration. Where it has a slot and units, its text is that of the slot, which is none where the
/// slot is no text, with the units behind it.
#[derive(Drop)]
pub enum Effect {
    /// It only answers.
    Answer(Answer),
    Raise(Exception),
    /// A new string of a text is given.
    GiveText(Slot, Vec<u16>),
    /// A new array of chars is given.
    GiveChars(Vec<u16>),
    /// A new Integer is given.
    GiveInteger(i32),
    /// A text is written.
    Print(Stream, Slot, Vec<u16>),
    /// The first cell of an object gets a text.
    SetText(u64, Slot, Vec<u16>),
    /// The same, and the object is given.
    ChangeText(u64, Slot, Vec<u16>),
    /// The first two cells of an object get values.
    SetCells(u64, Slot, Slot),
    /// Elements of an array, from a place on and so many, are copied to another one, or to itself, from a place on. They are there.
    Copy(u64, u32, u64, u32, u32),
}
