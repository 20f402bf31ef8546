//! Groups on small examples, over the space of masks and the space of diagrams.
#![tactic(auto)]

#[cfg(test)]
mod callers;
#[cfg(test)]
mod groups;
#[cfg(test)]
mod options;
#[cfg(test)]
mod tests;
#[cfg(test)]
mod tops;
