//! The words of the commands that read reports.

use vx_people::Telling;
use vx_value::Stream;

/// The words of `project`: a report, and the names of the options that are on.
#[derive(Clone, Copy)]
pub struct ProjectWords<'a> {
    pub report: &'a str,
    pub configuration: &'a str,
}

/// The words of `output`: a report, the names of the options that are on, and a stream.
#[derive(Clone, Copy)]
pub struct OutputWords<'a> {
    pub report: &'a str,
    pub configuration: &'a str,
    pub stream: Stream,
}

/// The words of a command that tells of a report: what is told, and the report.
#[derive(Clone, Copy)]
pub struct TellWords<'a> {
    pub telling: Telling,
    pub report: &'a str,
}

/// The words of `agree`: a report, and another one.
#[derive(Clone, Copy)]
pub struct AgreeWords<'a> {
    pub report: &'a str,
    pub other: &'a str,
}

/// The words of `join`: some reports.
#[derive(Clone, Copy)]
pub struct JoinWords<'a> {
    pub reports: &'a [String],
}
