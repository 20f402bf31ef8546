//! What the parts of an assembled class are made of: its pool in the order of first needs, and the rules of names,
//! descriptors and flags.
#![tactic(auto)]

mod constants;
mod rules;
mod table;

pub use constants::{
    Constant, Kind, class_index, in_file_or_zero, pool_of, put_class, put_constant, put_text,
    text_index,
};
pub use rules::{
    has_dimensions, interface_slots, is_lawful_class, is_lawful_code, is_lawful_field,
    is_lawful_initialiser, is_lawful_method, is_plain_class, may_have_value,
};
pub use table::ConstantTable;
