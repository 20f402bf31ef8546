//! The words of the commands that run a folder's class files, or a program made for trials.

/// The words of `run` or `watch`: a folder, a model, a main class, the greatest number of attempts, and the version of the report.
#[derive(Clone, Copy)]
pub struct RunWords<'a> {
    /// Whether it is told while it goes on how far the runs have come.
    pub watched: bool,
    pub folder: &'a str,
    pub model: &'a str,
    pub main: &'a str,
    pub limit: u64,
    pub version: u8,
}

/// The words of `load`: a seed, and a number of options.
#[derive(Clone, Copy)]
pub struct LoadWords {
    pub seed: u64,
    pub options: u32,
}

/// The words of `verify`: a folder, a model, and a main class.
#[derive(Clone, Copy)]
pub struct VerifyWords<'a> {
    pub folder: &'a str,
    pub model: &'a str,
    pub main: &'a str,
}

/// What is told of the run of one configuration.
#[derive(Clone, Copy)]
pub enum Retelling {
    /// What it writes, how it ends, and where it stands at the end.
    Replay,
    /// The stack trace of its end.
    Trace,
}

/// The words of `replay` or `trace`: a folder, a model, a main class, the greatest number of attempts, and the names of the options that
/// are on.
#[derive(Clone, Copy)]
pub struct RetellWords<'a> {
    pub retelling: Retelling,
    pub folder: &'a str,
    pub model: &'a str,
    pub main: &'a str,
    pub limit: u64,
    pub configuration: &'a str,
}
