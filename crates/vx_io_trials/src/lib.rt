//! Files and sinks in memory, on small examples.
#![tactic(auto)]

#[cfg(test)]
mod files;
#[cfg(test)]
mod sinks;
