//! The beginnings of texts as nodes of a trie.

ghost use Rattle.std.specs.Prelude.{◌≡◌, ◌<◌, [], ◌∷◌, ◌++◌, length, take, IfOk};
ghost use Rattle.std.proofs.Props.{props};
ghost use Rattle.vx_value.specs.Texts.{AreDistinct, Extends, IsNumber, text_at};
ghost use Rattle.vx_value.specs.Trie.{AreSteps, paths};

use indexmap::IndexSet;
use std::alloc::{AllocError, Global};
use vx_list::Keyed;

/// A trie of texts. The empty text ends at node 0, and each other node follows an earlier one by one unit. Different nodes end
/// different texts, so a text that was walked is found again with no comparison of texts.
#[derive(Drop)]
pub struct Trie {
    /// The node that each node but the first follows, and the unit between them.
    pub(crate) steps: IndexSet<(u64, u16), Keyed>,
    pub(crate) ghost are_steps: { AreSteps steps.keys } by { Prim.hlevel props },
    pub(crate) ghost distinct: { AreDistinct (paths steps.keys) } by { Prim.hlevel props },
}

impl Trie {
    /// The first node alone. Takes no memory.
    pub(crate) fn new(alloc: Global, key: Keyed) -> Trie
        ensures { result.steps.keys ≡ [] }
    {
        Trie {
            steps: IndexSet::with_hasher(alloc, key),
        }
    }

    /// The node behind a node by one unit, which is made unless it is there.
    fn step(&mut self, start: u64, unit: u16) -> Result<u64, AllocError>
        requires { start < length (paths self.old.steps.keys) }
        ensures text { IfOk result (λ end. IsNumber (paths self.new.steps.keys) end (text_at (paths self.old.steps.keys) start ++ unit ∷ [])) }
        ensures extends { Extends (paths self.old.steps.keys) (paths self.new.steps.keys) }
    {
        let (place, _) = self.steps.insert_full((start, unit))?;
        prove!(place < self.steps.len());
        Ok(place as u64 + 1)
    }

    /// The node at which the text of a node ends with units behind it. Nodes that aren't there yet are made. After an error some
    /// of them may be there.
    pub(crate) fn walk(&mut self, start: u64, units: &[u16]) -> Result<u64, AllocError>
        requires { start < length (paths self.old.steps.keys) }
        ensures text { IfOk result (λ end. IsNumber (paths self.new.steps.keys) end (text_at (paths self.old.steps.keys) start ++ units.now)) }
        ensures extends { Extends (paths self.old.steps.keys) (paths self.new.steps.keys) }
    {
        let mut node = start;
        for index in 0..units.len() {
            node = self.step(node, units[index])?;
        }
        Ok(node)
    }
}
