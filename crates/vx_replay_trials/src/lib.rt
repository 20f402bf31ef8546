//! Line tables and texts, on worked rows.
#![tactic(auto)]

#[cfg(test)]
mod lines;
#[cfg(test)]
mod units;
