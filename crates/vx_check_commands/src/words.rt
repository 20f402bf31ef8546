//! The words of `check` and `compare`.

/// The words of `check`: a report, and what is expected of it, where that is given.
#[derive(Clone, Copy)]
pub struct CheckWords<'a> {
    pub report: &'a str,
    pub expected: Option<&'a str>,
}

/// The words of `compare`: two reports.
#[derive(Clone, Copy)]
pub struct CompareWords<'a> {
    pub report: &'a str,
    pub other: &'a str,
}
