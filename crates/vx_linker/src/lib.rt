//! Linking: from the class files of a folder and the core classes to a program, or their first fault (JVMS 5.3, 5.4).
#![tactic(auto)]

mod class_numbers;
mod classes;
mod counting;
mod entries;
mod fields;
mod files;
mod judging;
mod layout;
pub mod linking;
mod methods;
mod parts;
mod shared_texts;
mod whole;

pub use files::Files;
pub use judging::{has_main_method, is_option_field};
pub use linking::{link, linkable};
