//! Native methods: what a call of one is given at each configuration, which method a number is, what is read for it, and what it does at
//! one configuration (the class library of Java SE 7).
#![tactic(auto)]

mod arguments;
pub mod behaviour;
pub mod call;
pub mod calls;
mod cells;
mod chars;
pub mod effect;
pub mod readings;
pub mod reads;
pub mod texts;

pub use behaviour::{
    Behaviour, BuilderChange, CellQuestion, Computation, Initialiser, Maker, Printing, Spelling,
    TextQuestion, behaviour_of,
};
pub use call::{Call, value_of_call, with_value};
pub use calls::{NativeCall, native_call};
pub use effect::{Effect, Exception};
pub use readings::Reading;
pub use reads::read_calls;
pub use texts::units_in;
