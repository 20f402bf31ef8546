//! Values in order, which contracts see as a list: the type of every field that holds many values. And what calls on lists and tables have in
//! common: how want of memory leaves a list as it was, and how hashes of what an input names begin.
#![tactic(auto)]

ghost use Rattle.std.specs.Prelude.{◌≡◌, length, slice_get, option_copied};

mod appending;
mod given_up;
mod keyed;

pub use appending::{or_cut_back, put_one};
pub use given_up::GivenUp;
pub use keyed::Keyed;
use std::marker::Model;

/// Values in order, which contracts see as the list of them. It is made from a `Vec` and gives it back, without memory.
#[derive(Debug, Drop)]
pub struct Items<T> {
    items: Vec<T>,
}

impl<T> Model for Items<T> {
    ghost use Rattle.std.specs.Prelude.{List};

    ghost Value = { List T };

    ghost view = { λ s. s.items.items };
}

impl<T> Items<T> {
    /// The values of a vector.
    pub fn of(items: Vec<T>) -> Items<T>
        ensures { result ≡ items.items }
    {
        Items { items }
    }

    /// How many values there are.
    pub fn len(&self) -> usize
        ensures { result ≡ length self.now }
    {
        self.items.len()
    }

    /// The value at a place, or `None` past the last one.
    pub fn get(&self, place: usize) -> Option<&T>
        ensures { option_copied result ≡ slice_get self.now place }
    {
        self.items.get(place)
    }

    /// The values as a slice.
    pub fn as_slice(&self) -> &[T]
        ensures { result.now ≡ self.now }
    {
        &self.items
    }

    /// The vector that holds them.
    pub fn into_vec(self) -> Vec<T>
        ensures { result.items ≡ self }
    {
        let Items { items } = self;
        items
    }
}
