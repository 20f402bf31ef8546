//! Plain values of the machine: names, slots, texts, numbers of classes, methods and fields, keys, ends, and what
//! arithmetic computes of plain numbers.
#![tactic(auto)]

pub mod buffers;
pub mod end;
pub mod exact;
pub mod ids;
pub mod key;
pub mod name;
pub mod operation;
pub mod slot;
pub mod texts;
pub mod trie;

pub use end::{End, Stream};
pub use exact::Exact;
pub use ids::{ClassId, FieldId, MethodId};
pub use key::{Key, KeyPart, Kind};
pub use name::Name;
pub use operation::{IntOp, Narrow, ShiftOp};
pub use slot::{InitState, Slot};
pub use texts::TextTable;
