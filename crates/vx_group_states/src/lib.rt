//! What a shared state stands for at a configuration, and how an attempt ends in a part of a group: what the families of
//! instructions share.
#![tactic(auto)]

pub mod answer;
pub mod answering;
pub mod endings;
pub mod parting;
pub mod passing;
pub mod settling;
pub mod site;

pub use answer::Answer;
pub use answering::carry_out;
pub use endings::{illegal, pass};
pub use parting::part_in;
pub use passing::pass_where;
pub use settling::{settle, stack_size, width};
pub use site::Site;
