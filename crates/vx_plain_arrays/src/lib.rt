//! Arrays of the plain machine (JVMS 6.5).
#![tactic(auto)]

mod classes;
mod elements;
mod grids;
mod lengths;
mod loading;
mod making;
mod storing;

pub use grids::new_grid;
pub use loading::{array_length, load_element};
pub use making::{new_primitives, new_references};
pub use storing::store_element;
