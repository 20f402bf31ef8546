//! The state of the ordinary Java machine for one configuration, as plain values: objects, static fields, how far classes are
//! initialised, and frames. It has no space and no conditions, and is changed in place.
#![tactic(auto)]

mod frame;
mod limits;
mod object;
mod state;
mod value;

pub use frame::Frame;
pub use limits::held;
pub use object::{Body, Object};
pub use state::State;
pub use value::Value;
