//! Labels in order, found by the hashes of their names.

ghost use Rattle.std.specs.Prelude.{◌≡◌, ◌++◌, ◌∷◌, [], ℕ, List, length, take, is_some, slice_get, if◌then◌else◌, Some, None, option_map, IfOk};
ghost use Rattle.std.specs.Option.{option_or};
ghost use Rattle.std.specs.Str.{bytes_eq};
ghost use Rattle.vx_code_parts.specs.Bodies.{find_label};
ghost use Rattle.vx_code_parts.specs.Firsts.{first_of};

use crate::items::pushed;
use indexmap::IndexMap;
use std::alloc::{AllocError, Global};
use std::marker::Model;
use vx_list::{Items, Keyed};
use vx_value::Name;

/// A label, and the number of the instruction behind it.
#[derive(Debug, Drop)]
pub struct Label {
    pub name: Name,
    pub at: usize,
}

/// Labels in order, the first of each name found by its hash. Contracts see the list of them.
#[derive(Drop)]
pub struct LabelTable {
    labels: Items<Label>,
    /// The place of the first label of each name.
    firsts: IndexMap<Vec<u8>, usize, Keyed>,
}

impl Model for LabelTable {
    ghost use Rattle.std.specs.Prelude.{List};
    ghost use Rattle.vx_code_parts.specs.Firsts.{AreFirst};
    ghost use Rattle.vx_code_parts.specs.declared.label_table.Label.{Label};

    ghost Value = { List Label };

    ghost view = { λ table. table.labels };

    ghost invariant = { λ table. AreFirst table.labels table.firsts };
}

/// Places with that of a name, unless it has one.
fn with_first(
    alloc: Global,
    firsts: IndexMap<Vec<u8>, usize, Keyed>,
    name: &[u8],
    place: usize,
) -> Result<IndexMap<Vec<u8>, usize, Keyed>, AllocError>
    ensures { IfOk result (λ m. (n : List ℕ) → first_of m n ≡ option_or (first_of firsts n) (if bytes_eq name.now n then Some place else None)) }
{
    if firsts.contains_key(name) {
        return Ok(firsts);
    }
    let mut firsts = firsts;
    firsts.insert(Vec::from_slice(alloc, name)?, place)?;
    Ok(firsts)
}

impl LabelTable {
    /// No labels. Hashes begin with a key that is made of all labels that may come.
    pub fn new(alloc: Global, key: Keyed) -> LabelTable
        ensures { result ≡ [] }
    {
        LabelTable {
            labels: Items::of(Vec::new(alloc)),
            firsts: IndexMap::with_hasher(alloc, key),
        }
    }

    /// How many labels there are.
    pub fn len(&self) -> usize
        ensures { result ≡ length self.now }
    {
        self.labels.len()
    }

    /// A label behind the others.
    pub fn with(self, alloc: Global, label: Label) -> Result<LabelTable, AllocError>
        ensures { IfOk result (λ table. table ≡ self ++ label ∷ []) }
    {
        let LabelTable { labels, firsts } = self;
        let firsts = with_first(alloc, firsts, label.name.bytes(), labels.len())?;
        let labels = pushed(labels, label)?;
        Ok(LabelTable { labels, firsts })
    }

    /// The number of the instruction behind the label at a place.
    fn number_at(&self, place: usize) -> Option<usize>
        ensures { result ≡ option_map (λ (l : Label). l.at) (slice_get self.now place) }
    {
        match self.labels.get(place) {
            None => None,
            Some(label) => Some(label.at),
        }
    }

    /// The number of the instruction behind the first label of a name.
    pub fn find(&self, name: &[u8]) -> Option<usize>
        ensures { result ≡ find_label self.now name.now }
    {
        match self.firsts.get(name) {
            None => None,
            Some(place) => self.number_at(*place),
        }
    }

    /// Whether one of the first labels, so many, has a name.
    pub fn is_among(&self, count: usize, name: &[u8]) -> bool
        ensures { result ≡ is_some (find_label (take count self.now) name.now) }
    {
        match self.firsts.get(name) {
            None => false,
            Some(place) => *place < count,
        }
    }
}
