//! Rows of numbers as the leaves of numbered trees, so that rows share what they have in common: a row that differs from another in one place
//! has one path of its own.

ghost use Rattle.std.specs.Prelude.{◌≡◌, ◌<◌, ◌≤◌, ◌-◌, ◌^◌, IfOk, IfSome, OnErr, OnOk, ◌++◌, ◌∷◌, [], length, replicate, slice_index, slice_set, take};
ghost use Rattle.vx_numbered.specs.Trees.{IsKnownPair, IsMade, IsPaired, IsTree, leaves, pair_at};

use crate::numbers::next_number;
use indexmap::IndexMap;
use std::alloc::{AllocError, Global};
use vx_list::or_cut_back;

/// Two trees with as many leaves each, by their numbers.
#[derive(Clone, Copy)]
pub struct Pair {
    pub low: u32,
    pub high: u32,
}

/// Pairs by number. A tree of no level is its one leaf, and a tree of more levels the number of a pair of trees with one level less. A pair
/// that comes again has its number again, so that equal trees are mostly the same one, and are compared at once.
#[derive(Drop)]
pub struct Trees {
    pub pairs: Vec<Pair>,
    /// Under which number a pair may be found. What is found there is looked at.
    numbers: IndexMap<(u32, u32), u32>,
}

/// How many leaves each half of a tree has.
fn half_of(levels: u32) -> u32
    requires some { 1 ≤ levels }
    requires few { levels ≤ 16 }
    ensures { result ≡ 2 ^ (levels - 1) }
{
    1 << (levels - 1)
}

impl Trees {
    /// No pairs.
    pub fn new(alloc: Global) -> Trees
        ensures { result.pairs.items ≡ [] }
    {
        Trees {
            pairs: Vec::new(alloc),
            numbers: IndexMap::new(alloc),
        }
    }

    /// The pair of a number.
    pub fn pair(&self, tree: u32) -> Pair
        requires { tree < length self.now.pairs.items }
        ensures { result ≡ pair_at self.now.pairs.items tree }
    {
        self.pairs[tree as usize]
    }

    /// The number of a pair of trees, if it is known.
    fn known(&self, low: u32, high: u32) -> Option<u32>
        ensures { IfSome result (IsKnownPair self.now.pairs.items low high) }
    {
        let number = *self.numbers.get(&(low, high))?;
        let pair = *self.pairs.get(number as usize)?;
        if pair.low != low {
            return None;
        }
        if pair.high != high {
            return None;
        }
        Some(number)
    }

    /// A new pair. Want of memory leaves the pairs as they were.
    fn put(&mut self, low: u32, high: u32) -> Result<u32, AllocError>
        ensures number { IfOk result (λ number. number ≡ length self.old.pairs.items) }
        ensures pairs { OnOk result (self.new.pairs.items ≡ self.old.pairs.items ++ record { low = low; high = high } ∷ []) }
        ensures err { OnErr result (self.new.pairs.items ≡ self.old.pairs.items) }
    {
        let number = next_number(self.pairs.len())?;
        self.numbers.insert((low, high), number)?;
        self.pairs.push(Pair { low, high })?;
        Ok(number)
    }

    /// The number of a pair of trees, which may be known. Want of memory leaves the pairs as they were.
    pub fn paired(&mut self, low: u32, high: u32) -> Result<u32, AllocError>
        ensures ok { IfOk result (IsPaired self.old.pairs.items self.new.pairs.items low high) }
        ensures err { OnErr result (self.new.pairs.items ≡ self.old.pairs.items) }
    {
        match self.known(low, high) {
            Some(number) => Ok(number),
            None => self.put(low, high),
        }
    }

    /// The number of a pair of trees, which may be known. Want of memory cuts the pairs back to so many.
    fn paired_or_back(&mut self, low: u32, high: u32, held: usize) -> Result<u32, AllocError>
        ensures ok { IfOk result (IsPaired self.old.pairs.items self.new.pairs.items low high) }
        ensures err { OnErr result (self.new.pairs.items ≡ take held self.old.pairs.items) }
    {
        or_cut_back(self.paired(low, high), &mut self.pairs, held)
    }

    /// A tree of so many levels whose leaves are all of one number. Want of memory leaves the pairs as they were.
    pub fn row_of(&mut self, leaf: u32, levels: u32) -> Result<u32, AllocError>
        requires { levels ≤ 16 }
        ensures ok { IfOk result (λ tree. IsMade self.old.pairs.items self.new.pairs.items levels tree (replicate (2 ^ levels) leaf)) }
        ensures err { OnErr result (self.new.pairs.items ≡ self.old.pairs.items) }
    {
        let held = self.pairs.len();
        let mut tree = leaf;
        for _level in 0..levels {
            tree = self.paired_or_back(tree, tree, held)?;
        }
        Ok(tree)
    }

    /// The number of a leaf.
    pub fn leaf(&self, tree: u32, levels: u32, place: u32) -> u32
        requires few { levels ≤ 16 }
        requires tree { IsTree self.now.pairs.items levels tree }
        requires place { place < 2 ^ levels }
        ensures { result ≡ slice_index (leaves self.now.pairs.items levels tree) place }
    {
        if levels == 0 {
            return tree;
        }
        let pair = self.pair(tree);
        let half = half_of(levels);
        if place < half {
            self.leaf(pair.low, levels - 1, place)
        } else {
            self.leaf(pair.high, levels - 1, place - half)
        }
    }

    /// The tree with another number as one of its leaves; the same tree where nothing changes. Want of memory leaves the pairs as they were.
    pub fn with_leaf(
        &mut self,
        tree: u32,
        levels: u32,
        place: u32,
        leaf: u32,
    ) -> Result<u32, AllocError>
        requires few { levels ≤ 16 }
        requires tree { IsTree self.old.pairs.items levels tree }
        requires place { place < 2 ^ levels }
        ensures ok { IfOk result (λ made. IsMade self.old.pairs.items self.new.pairs.items levels made (slice_set (leaves self.old.pairs.items levels tree) place leaf)) }
        ensures err { OnErr result (self.new.pairs.items ≡ self.old.pairs.items) }
    {
        if levels == 0 {
            return Ok(leaf);
        }
        let held = self.pairs.len();
        let pair = self.pair(tree);
        let half = half_of(levels);
        if place < half {
            let low = self.with_leaf(pair.low, levels - 1, place, leaf)?;
            if low == pair.low {
                return Ok(tree);
            }
            return self.paired_or_back(low, pair.high, held);
        }
        let high = self.with_leaf(pair.high, levels - 1, place - half, leaf)?;
        if high == pair.high {
            return Ok(tree);
        }
        self.paired_or_back(pair.low, high, held)
    }
}
