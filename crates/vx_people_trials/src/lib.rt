//! Pictures, covers, explanations and counts of small reports.
#![tactic(auto)]

#[cfg(test)]
mod check;
#[cfg(test)]
mod count;
#[cfg(test)]
mod cover;
#[cfg(test)]
mod explain;
#[cfg(test)]
mod picture;
#[cfg(test)]
mod reports;
