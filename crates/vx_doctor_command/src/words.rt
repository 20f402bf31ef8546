//! The words of `doctor`.

/// The words of `doctor`: a folder, a model, and a main class.
#[derive(Clone, Copy)]
pub struct DoctorWords<'a> {
    pub folder: &'a str,
    pub model: &'a str,
    pub main: &'a str,
}
