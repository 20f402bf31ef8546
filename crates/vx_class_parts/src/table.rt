//! Constants in order, each once, with their indices in the pool.

ghost use Rattle.std.specs.Prelude.{◌≡◌, ◌<◌, ◌^◌, [], OnErr, OnOk};
ghost use Rattle.vx_class_parts.specs.Constants.{with, index_of, places};

use crate::constants::{Constant, width};
use indexmap::IndexMap;
use std::alloc::{AllocError, Global};
use std::marker::Model;
use vx_list::Keyed;

/// Constants in order, each once, found by their hashes. Contracts see the list of them.
#[derive(Drop)]
pub struct ConstantTable {
    /// The index of each constant: a long takes two places.
    indices: IndexMap<Constant, u128, Keyed>,
    places: u128,
}

impl Model for ConstantTable {
    ghost use Rattle.std.specs.Prelude.{List};
    ghost use Rattle.indexmap.specs.IndexMap.{keys};
    ghost use Rattle.vx_class_parts.specs.Table.{IsIndexed};
    ghost use Rattle.vx_class_parts.specs.declared.constants.Constant.{Constant};

    ghost Value = { List Constant };

    ghost view = { λ table. keys table.indices };

    ghost invariant = { λ table. IsIndexed table.indices.entries table.places };
}

impl ConstantTable {
    /// No constants. Hashes begin with a key that is made of all from which constants come.
    pub fn new(alloc: Global, key: Keyed) -> ConstantTable
        ensures { result ≡ [] }
    {
        ConstantTable {
            indices: IndexMap::with_hasher(alloc, key),
            places: 1,
        }
    }

    /// How many places there are, place 0 among them.
    pub fn places(&self) -> u128
        ensures value { result ≡ places self.now }
        ensures small { result < 2 ^ 65 }
    {
        let count = self.indices.len();
        prove!(self.places <= 1 + 2 * count as u128);
        self.places
    }

    /// Puts a constant behind the others, unless it is there. Want of memory leaves the table as it was.
    #[tactic(auto, unfolding(crate::specs::Constants::with))]
    pub(crate) fn put(&mut self, constant: Constant) -> Result<(), AllocError>
        ensures ok { OnOk result (self.new ≡ with self.old constant) }
        ensures err { OnErr result (self.new ≡ self.old) }
    {
        if self.indices.contains_key(&constant) {
            return Ok(());
        }
        let index = self.places();
        let behind = index + u128::from(width(&constant));
        self.indices.insert(constant, index)?;
        self.places = behind;
        Ok(())
    }

    /// The index of a constant that is there.
    #[tactic(auto, unfolding(crate::specs::Constants::index_of))]
    pub fn index_of(&self, constant: &Constant) -> u128
        ensures { result ≡ index_of self.now constant.now }
    {
        match self.indices.get(constant) {
            Some(index) => *index,
            None => self.places,
        }
    }

    /// The constants in their order.
    pub fn as_slice(&self) -> &[Constant]
        ensures { result.now ≡ self.now }
    {
        self.indices.keys().as_slice()
    }
}
