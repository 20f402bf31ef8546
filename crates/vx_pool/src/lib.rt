//! The constant pool of a class file: a cursor that reads it, its entries, and the checks of a class file that read no bytes, of entries,
//! instructions and jumps.
#![tactic(auto)]

mod cursor;
mod entries;
mod fault;
mod instructions;
mod judged;
mod jumps;
mod lookups;
mod modified_utf8;
mod pool;
mod reading;
mod starts;
mod utf8;

pub use cursor::Cursor;
pub use entries::check_entries;
pub use fault::{ClassFault, refusal};
pub use instructions::{dimensions, is_callable, starts_of};
pub use judged::JudgedPool;
pub use jumps::check_jumps;
pub use lookups::{
    class_text, entry_of, is_array, is_class, is_usable, member_descriptor, member_name, text,
};
pub use modified_utf8::is_text;
pub use pool::{Entry, Pool};
pub use reading::read_pool;
pub use starts::Starts;
pub use utf8::Utf8;
