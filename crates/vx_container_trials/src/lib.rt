//! Sets of configurations on small examples, over the space of masks and the space of diagrams, and conditional values, rows and frames
//! over masks: each run of the built program has those over diagrams.
#![tactic(auto)]

#[cfg(test)]
mod conds;
#[cfg(test)]
mod diagrams;
#[cfg(test)]
mod frames;
#[cfg(test)]
mod options;
#[cfg(test)]
mod rows;
#[cfg(test)]
mod sets;
#[cfg(test)]
mod tests;
#[cfg(test)]
mod tools;
