//! The words of `cut`.

/// The options by which a model is cut: those that a word names, or so many, from 1 to 16.
#[derive(Clone, Copy)]
pub enum Chosen<'a> {
    Named(&'a str),
    Many(u32),
}

/// The words of `cut`: a model, how its options are chosen, and a report of the model, where one is given.
#[derive(Clone, Copy)]
pub struct CutWords<'a> {
    pub model: &'a str,
    pub chosen: Chosen<'a>,
    pub report: Option<&'a str>,
}
