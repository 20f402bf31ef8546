//! Texts of lines and words: where the next line or word stands, decimal numbers, and how a byte is spelled.
#![tactic(auto)]

mod decimal;
mod lines;
mod names;
mod printed;
mod spelling;

pub use decimal::decimal_up_to;
pub use lines::{are_plain, is_blank, next_line, next_word, skip_blanks};
pub use names::{is_name, is_word_byte};
pub use printed::{printed_u64, printed_u128, put_number};
pub use spelling::{TEXT, WORD, hex_value, is_plain, spelled_byte};
