//! What is told of configurations that fail.

use vx_explain::Rule;
use vx_list::Items;
use vx_space::Config;
use vx_value::Name;

/// Configurations that fail in one way.
#[derive(Drop)]
pub struct Told {
    /// How bad their end is, from 0 for the worst.
    pub rank: u8,
    /// The place of their end in the report, from 0 on.
    pub place: u64,
    /// The words of their end, as a report spells them.
    pub end: Name,
    /// The number of the line that they miss; none where no line speaks of them.
    pub line: Option<u64>,
    /// How many they are, at most 2^64.
    pub number: u128,
    /// The first of them: off stands before on, and the first option changes slowest.
    pub example: Config,
    /// True just at these, among the configurations that have an end; none where there is none of at most 32 terms.
    pub rule: Option<Rule>,
}

/// What a check of a report tells.
#[derive(Drop)]
pub struct Checked {
    /// How many configurations have an end, at most 2^64.
    pub of: u128,
    /// How many of them fail.
    pub failing: u128,
    /// The ways in which they fail, the worst first.
    pub told: Items<Told>,
}
