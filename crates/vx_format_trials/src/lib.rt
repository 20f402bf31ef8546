//! The readers and the writers of texts and of class files, on worked rows.
#![tactic(auto)]

#[cfg(test)]
mod class;
#[cfg(test)]
mod configurations;
#[cfg(test)]
mod dimacs;
#[cfg(test)]
mod draft;
#[cfg(test)]
mod files;
#[cfg(test)]
mod model;
#[cfg(test)]
mod report_line;
#[cfg(test)]
mod source;
#[cfg(test)]
mod words;
#[cfg(test)]
mod writer;
