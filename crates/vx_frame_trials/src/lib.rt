//! Frames that groups get and lose, on small examples, over the space of masks and the space of diagrams.
#![tactic(auto)]

#[cfg(test)]
mod groups;
#[cfg(test)]
mod methods;
#[cfg(test)]
mod options;
#[cfg(test)]
mod tests;
#[cfg(test)]
mod trials;
