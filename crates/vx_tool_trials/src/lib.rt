//! What is asked of reports: on which options their pieces and ends depend, and where two of them agree.
#![tactic(auto)]

#[cfg(test)]
mod agree;
#[cfg(test)]
mod compare;
#[cfg(test)]
mod interact;
#[cfg(test)]
mod reports;
