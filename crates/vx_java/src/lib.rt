//! The ordinary Java machine, for one configuration at a time. Its definitions stand in specs/, and the code answers the machine's
//! plain questions as they say: what an instruction does, and which class, field, method or place is meant. One call states the
//! law that joins single runs with all runs side by side.
#![tactic(auto)]

pub mod arrays;
mod assignability;
mod between;
pub mod decoding;
mod fields;
mod handlers;
mod hierarchy;
mod initialisation;
mod law;
mod methods;
mod naming;
mod operand;
mod operation;
pub mod parts;
mod places;
mod questions;
mod references;
mod resolution;
mod selected;
mod selection;
mod sizes;
mod specific;

pub use assignability::{assignable, is_above_arrays};
pub use fields::resolve_field;
pub use handlers::{covers, handler_for, name_of_entry};
pub use hierarchy::{is_superclass, superclasses};
pub use initialisation::{blocked, chain_blocked, init_chain, quiet_chain};
pub use law::lockstep_is_runs;
pub use naming::{class_in, class_named, class_of_name, class_of_type, core_class, object_id};
pub use operation::{Element, Mode, Operation, Shuffle, Sort, Test};
pub use places::place;
pub use references::{MemberReference, member, member_by};
pub use resolution::resolve_method;
pub use selected::Selected;
pub use selection::{select, select_special, selected_if_concrete};
pub use sizes::{room_of, size_in};
