//! Why a model or a class file is refused, as a person is told of it: what stands there, what fails, and how it is often put right.
#![tactic(auto)]

mod class_file;
mod model;
mod slips;
mod versions;

pub use class_file::put_class_refusal;
pub use model::put_model_refusal;
pub use versions::put_versions;
