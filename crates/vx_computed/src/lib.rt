//! Examples that are computed on the definitions: programs, written out as classes, whose reports, runs and link faults are
//! known from the rules by hand. Each function states a group of them.
#![tactic(auto)]

mod branches;
mod core_classes;
mod edges;
mod exceptions;
mod initialisers;
mod links;
mod many;
mod objects;
mod programs;
mod shop;
mod straight;
mod typed;
mod values;

pub use branches::branching_runs;
pub use core_classes::core_runs;
pub use edges::edge_runs;
pub use exceptions::throwing_runs;
pub use initialisers::initialising_runs;
pub use links::link_faults;
pub use many::many_configurations;
pub use objects::object_runs;
pub use programs::single_runs;
pub use shop::shop_run;
pub use straight::straight_runs;
pub use typed::typed_instructions;
pub use values::plain_values;
