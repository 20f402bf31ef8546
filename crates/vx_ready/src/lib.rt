//! The initialisation of a class where a row needs it, for all configurations of a group at once, and the runs that stop at
//! that row, since the class has failed or its initialisation begins.
#![tactic(auto)]

pub mod initialising;
pub mod stopping;

pub use initialising::{
    Mark, Readiness, make_ready, mark_classes, mark_one, states_inside, where_yes,
};
pub use stopping::{ended_part, stop_others};
