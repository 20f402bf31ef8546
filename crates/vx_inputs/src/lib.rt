//! What commands read: models, the class files of a folder with the program that they link to, and reports. Each stage is proved
//! against its part of a plan.
#![tactic(auto)]

mod job;
mod modeling;
mod reading;
mod reports;
mod taken;

pub use job::{is_dimacs, names_of, program_in};
pub use modeling::{
    Modeled, allowing_model, is_allowing, model_of, read_any_model, read_model_file, spelled_model,
    with_allowed,
};
pub use reading::{MOST_BYTES, list_class_files, place_below, read_file, read_folder};
pub use reports::{read_report_file, read_report_files};
pub use taken::{Parts, Traced, class_with_source, parted};
