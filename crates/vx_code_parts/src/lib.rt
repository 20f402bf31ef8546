//! The body of an assembled method: its labels, the rules of its instructions, and the bytes of its code.
#![tactic(auto)]

mod drafting;
mod drafts;
mod instructions;
mod items;
mod label_table;
mod labels;

pub use drafting::{constant_of, draft_of};
pub use drafts::{Draft, Row, all_reach, code_bytes, next_place, place_of};
pub use instructions::{check_instruction, is_known, is_of_version, leads, number_of};
pub use items::pushed;
pub use label_table::{Label, LabelTable};
pub use labels::{Labels, labels_of};
