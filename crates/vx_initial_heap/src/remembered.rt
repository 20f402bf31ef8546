//! Numbers for the literals of one pool, by the texts that they name.

ghost use Rattle.std.specs.Prelude.{◌≡◌, slice_set, IfOk};
ghost use Rattle.vx_initial_heap.specs.Remembered.{classes_with, number_for, texts_with};
ghost use Rattle.vx_list.specs.Places.{item_or};

use std::alloc::{AllocError, Global};
use vx_pool::{Entry, Pool};

/// A number for each string literal and each class of a pool, by the index of the text that it names, or 0 where there is none
/// yet. Entries of one kind that name the same text have one number.
#[derive(Drop)]
pub struct Remembered {
    texts: Vec<u64>,
    classes: Vec<u64>,
}

fn number_at(numbers: &[u64], index: u16) -> u64
    ensures { result ≡ item_or numbers.now index 0 }
{
    numbers.get(index as usize).copied().unwrap_or(0)
}

/// Puts a number at an index, if it is there.
fn put(numbers: &mut [u64], index: u16, number: u64)
    ensures { numbers.new ≡ slice_set numbers.old index number }
{
    let place = index as usize;
    if place < numbers.len() {
        numbers[place] = number;
    }
}

impl Remembered {
    /// No numbers for the literals of a pool.
    pub fn new(alloc: Global, pool: &Pool) -> Result<Remembered, AllocError>
        ensures { IfOk result (λ remembered. (e : Entry) → number_for remembered e ≡ 0) }
    {
        let count = pool.entries.len();
        let texts = vec![in alloc; 0; count]?;
        let classes = vec![in alloc; 0; count]?;
        Ok(Remembered { texts, classes })
    }

    /// The number of an entry, or 0.
    pub fn number(&self, entry: &Entry) -> u64
        ensures { result ≡ number_for self.now entry.now }
    {
        match entry {
            Entry::Text(index) => number_at(&self.texts, *index),
            Entry::Class(index) => number_at(&self.classes, *index),
            _ => 0,
        }
    }

    /// Gives an entry a number, if it is a literal.
    pub fn put(&mut self, entry: &Entry, number: u64)
        ensures texts { self.new.texts.items ≡ texts_with self.old.texts.items entry.now number }
        ensures classes { self.new.classes.items ≡ classes_with self.old.classes.items entry.now number }
    {
        match entry {
            Entry::Text(index) => put(&mut self.texts, *index, number),
            Entry::Class(index) => put(&mut self.classes, *index, number),
            _ => {}
        }
    }
}
