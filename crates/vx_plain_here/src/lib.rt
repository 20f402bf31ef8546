//! What an instruction of the plain machine sees, what it comes to, and how it goes on, ends the run or raises an exception; and what
//! rows and native methods both ask of values, types and lengths.
#![tactic(auto)]

mod arguments;
mod arrays;
mod asking;
mod endings;
mod here;
mod lengths;
mod outcome;
mod passing;
mod values;

pub use arguments::{are_matching, values_on_top};
pub use endings::{illegal_at, unsupported_at};
pub use here::Here;
pub use lengths::{int_of, is_within, natural};
pub use outcome::{Made, Outcome};
pub use passing::words_fit;
pub use values::{fits, narrowed};
