//! Strings and builders over the plain state of one configuration (the class library of Java SE 7): their native methods, how values are spelled, and how a
//! native method goes on.
#![tactic(auto)]

mod answers;
mod builders;
mod call;
mod spelling;
mod strings;
mod texts;

pub use answers::{
    answer, answer_bool, answer_int, answer_new, answer_text, illegal, not_a_number, nothing,
    null_pointer,
};
pub use builders::{
    builder_append, builder_delete, builder_init_capacity, builder_reverse, builder_set_length,
};
pub use call::{Arguments, Call};
pub use spelling::{Spelling, spelled};
pub use strings::{
    answer_false, answer_receiver, same_object, string_compare, string_concat, string_ends_with,
    string_equals, string_hash, string_index_of, string_index_of_point, string_init,
    string_init_chars, string_init_string, string_starts_with, string_substring, string_to_chars,
    text_char_at, text_is_empty, text_length, text_to_string,
};
