//! What a row of the instruction table, a native method or a beginning comes to.

use vx_list::GivenUp;
use vx_value::{ClassId, End, MethodId, Stream};

/// What an attempt comes to, over the state that it has changed.
#[derive(Drop)]
pub enum Outcome {
    Go,
    /// An exception of a class is made, with a message or without one, and thrown.
    Raise {
        class: ClassId,
        message: Option<Vec<u16>>,
    },
    /// An object is thrown.
    Throw(u64),
    /// The initialisation of a class begins.
    Begin(ClassId),
    /// A native method is carried out.
    Native(MethodId),
    /// A text is written.
    Write(Stream, Vec<u16>),
    /// The run is over.
    Ended(End),
}

/// An outcome, unless memory runs out. What doesn't fit the numbers of the code, as a position from 2^32 on, is refused as want of
/// memory too.
pub type Made = Result<Outcome, GivenUp>;
