//! Tables of names: the place of a name among names in order, found by its hash.
#![tactic(auto)]

ghost use Rattle.std.specs.Prelude.{◌≡◌, [], IfOk, OnErr, OnOk, IsTrue, ◌↔◌, ◌<◌, ◌^◌, IfSome, length, not};
ghost use Rattle.vx_names.specs.Names.{has_name, place_of, with_name};

use indexmap::IndexSet;
use std::alloc::{AllocError, Global};
use std::marker::Model;
use vx_list::Keyed;

/// Names in order, each once. Contracts see the list of them.
#[derive(Drop)]
pub struct NameTable {
    names: IndexSet<Vec<u8>, Keyed>,
}

impl Model for NameTable {
    ghost use Rattle.std.specs.Prelude.{ℕ, List, map};

    ghost Value = { List (List ℕ) };

    ghost view = { λ table. map (λ name. name.items) table.names.keys };
}

impl NameTable {
    /// No names. What is put there is to be few, as the classes of a program are: their hashes have a key that everybody knows.
    pub fn new(alloc: Global) -> NameTable
        ensures { result ≡ [] }
    {
        NameTable::keyed(alloc, Keyed::by(&[]))
    }

    /// No names. Hashes begin with a key that is made of all the names that may come.
    pub fn keyed(alloc: Global, key: Keyed) -> NameTable
        ensures { result ≡ [] }
    {
        NameTable {
            names: IndexSet::with_hasher(alloc, key),
        }
    }

    /// How many names there are.
    pub fn len(&self) -> usize
        ensures len { result ≡ length self.now }
        ensures small { result < 2 ^ 63 }
    {
        self.names.len()
    }

    /// Whether there are none.
    pub fn is_empty(&self) -> bool
        ensures { IsTrue result ↔ (self.now ≡ []) }
    {
        self.names.is_empty()
    }

    /// Puts a name behind the others unless it is there already, and says whether it was put. After an error the names are
    /// as they were.
    pub fn add(&mut self, name: Vec<u8>) -> Result<bool, AllocError>
        ensures new { IfOk result (λ is_new. is_new ≡ not (has_name self.old name.items)) }
        ensures names { OnOk result (self.new ≡ with_name self.old name.items) }
        ensures err { OnErr result (self.new ≡ self.old) }
    {
        Ok(self.names.insert(name)?)
    }

    /// Whether a name is there.
    pub fn has(&self, name: &[u8]) -> bool
        ensures { result ≡ has_name self.now name.now }
    {
        self.names.contains(name)
    }

    /// The place of a name, if it is there.
    pub fn place_of(&self, name: &[u8]) -> Option<usize>
        ensures place { result ≡ place_of self.now name.now }
        ensures within { IfSome result (λ place. place < length self.now) }
    {
        self.names.get_index_of(name)
    }
}
