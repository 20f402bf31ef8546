//! Linking with the core classes, on small folders; tables of names and the order of places.
#![tactic(auto)]

#[cfg(test)]
mod ancestry;
#[cfg(test)]
mod core_classes;
#[cfg(test)]
mod faults;
#[cfg(test)]
mod names;
#[cfg(test)]
mod programs;
