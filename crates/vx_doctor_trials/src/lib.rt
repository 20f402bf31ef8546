//! Trials of what `doctor` tells: of what a program may lack, of an overview of a model, and of refusals in words.
#![tactic(auto)]

#[cfg(test)]
mod calls;
#[cfg(test)]
mod lacks;
#[cfg(test)]
mod links;
#[cfg(test)]
mod overviews;
#[cfg(test)]
mod programs;
#[cfg(test)]
mod refusals;
#[cfg(test)]
mod spots;
