//! Numbers, keys and the one that is picked, tables of texts, the space of masks by itself, and the orders of findings, on small examples.
#![tactic(auto)]

#[cfg(test)]
mod findings;
#[cfg(test)]
mod keys;
#[cfg(test)]
mod least_key;
#[cfg(test)]
mod masks;
#[cfg(test)]
mod numbers;
#[cfg(test)]
mod texts;
