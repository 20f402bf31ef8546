//! The table of distinct reduced nodes, from which all sets are made.

ghost use Rattle.std.specs.Prelude.{◌≡◌, ℕ, ◌<◌, ◌≤◌, Some, IfOk, OnOk, OnErr, true, false, if◌then◌else◌};
ghost use Rattle.std.proofs.Props.{props};
ghost use Rattle.vx_space.specs.Config.{value_of};
ghost use Rattle.vx_bdd.specs.Diagram.{IsReduced, IsNode, node_at, asked_of, is_stored, level, reaches};
ghost use Rattle.vx_bdd.specs.Marks.{is_marked, IsMarking, KeepsMarked};
ghost use Rattle.vx_bdd.specs.Swept.{IsSwept};
ghost use Rattle.vx_bdd.specs.Table.{IsIndex, Grows, Stands, AreParts, IsStep};

use crate::compaction::{drop_nodes, unmarked_ids};
use crate::marks::Marks;
use crate::node::Node;
use slab::Slab;
use std::alloc::{AllocError, Global};
use std::collections::HashMap;
use std::collections::hash_map::Entry;
use vx_space::{Config, SpaceFault};

/// The nodes by id, and the ids by node (the unique table). The ids 0 and 1 are never and always, which have no node.
#[derive(Drop)]
pub struct Table {
    pub options: u32,
    pub nodes: Slab<Node>,
    pub ids: HashMap<Node, usize>,
    /// The roots of the last sweep.
    pub roots: Vec<usize>,
    /// Whether a node may have come since, or there was no sweep.
    pub grown: bool,
    pub ghost few: { options < 65 },
    pub ghost reduced: { IsReduced options nodes.slots } by { Prim.hlevel props },
    pub ghost index: { IsIndex nodes.slots ids } by { Prim.hlevel props },
    pub ghost swept: { grown ≡ false → IsSwept options nodes.slots roots.items } by { Prim.hlevel props },
}

impl Table {
    /// The id of a node, which is added if it is new.
    pub fn find_or_add(&mut self, node: Node) -> Result<usize, SpaceFault>
        requires { IsNode self.old.options self.old.nodes.slots node }
        ensures options { self.new.options ≡ self.old.options }
        ensures grows { Grows self.old.nodes.slots self.new.nodes.slots }
        ensures ok { IfOk result (λ id. node_at self.new.nodes.slots id ≡ Some node) }
    {
        match self.ids.entry(node)? {
            Entry::Occupied(entry) => Ok(*entry.get()),
            Entry::Vacant(entry) => {
                self.grown = true;
                self.nodes.reserve(1)?;
                let id = self.nodes.insert_reserved(node);
                entry.insert(id);
                Ok(id)
            }
        }
    }

    /// The id of the set that is one part where an option is off, and another where it is on.
    pub fn make(&mut self, option: u32, low: usize, high: usize) -> Result<usize, SpaceFault>
        requires option { option < self.old.options }
        requires low { is_stored self.old.nodes.slots low ≡ true }
        requires high { is_stored self.old.nodes.slots high ≡ true }
        requires low_later { option < level self.old.nodes.slots self.old.options low }
        requires high_later { option < level self.old.nodes.slots self.old.options high }
        ensures options { self.new.options ≡ self.old.options }
        ensures grows { Grows self.old.nodes.slots self.new.nodes.slots }
        ensures ok { IfOk result (λ id. Stands self.old.options self.new.nodes.slots option id (λ c. if value_of c option then reaches self.old.nodes.slots self.old.options high c else reaches self.old.nodes.slots self.old.options low c)) }
    {
        if low == high {
            return Ok(low);
        }
        self.find_or_add(Node { option, low, high })
    }

    /// Whether a sweep with some roots has nothing to drop, since the last had just these, and no node came since.
    pub fn is_swept(&self, roots: &[usize]) -> bool
        ensures { result ≡ true → IsSwept self.now.options self.now.nodes.slots roots.now }
    {
        !self.grown && self.roots.as_slice() == roots
    }

    /// Drops all nodes that have no mark, where those under some roots have one, and says whether there were none. Want of memory drops
    /// none.
    pub fn sweep(
        &mut self,
        alloc: Global,
        marks: &Marks,
        roots: &[usize],
    ) -> Result<bool, AllocError>
        requires { IsMarking self.old.nodes.slots roots.now (is_marked marks.now) }
        ensures options { self.new.options ≡ self.old.options }
        ensures kept { OnOk result (KeepsMarked (is_marked marks.now) self.old.nodes.slots self.new.nodes.slots) }
        ensures all { IfOk result (λ all_kept. all_kept ≡ true → Grows self.old.nodes.slots self.new.nodes.slots) }
        ensures err { OnErr result (self.new ≡ self.old) }
    {
        let unmarked = unmarked_ids(alloc, &self.ids, marks)?;
        let swept = Vec::from_slice(alloc, roots)?;
        drop_nodes(&mut self.nodes, &mut self.ids, unmarked.as_slice());
        self.roots = swept;
        self.grown = false;
        Ok(unmarked.is_empty())
    }

    /// The node of an id.
    pub fn node(&self, id: usize) -> Option<Node>
        ensures { result ≡ node_at self.now.nodes.slots id }
    {
        if id < 2 {
            None
        } else {
            self.nodes.get(id).copied()
        }
    }

    /// What an id asks, and its parts: never and always ask the number of options, and are their own parts.
    pub fn asked(&self, id: usize) -> Node
        requires { is_stored self.now.nodes.slots id ≡ true }
        ensures asked { result ≡ asked_of self.now.options id (node_at self.now.nodes.slots id) }
        ensures level { result.option ≡ level self.now.nodes.slots self.now.options id }
        ensures at_most { result.option ≤ self.now.options }
    {
        match self.node(id) {
            Some(node) => node,
            None => Node {
                option: self.options,
                low: id,
                high: id,
            },
        }
    }

    /// The parts of an id's set, by what it asks, with an option off and on that is not after the id's own.
    pub fn parts(&self, asked: Node, id: usize, option: u32) -> (usize, usize)
        requires asked { asked ≡ asked_of self.now.options id (node_at self.now.nodes.slots id) }
        requires stored { is_stored self.now.nodes.slots id ≡ true }
        requires option { option < self.now.options }
        requires level { option ≤ level self.now.nodes.slots self.now.options id }
        ensures { AreParts self.now.options self.now.nodes.slots id option result.0 result.1 }
    {
        if asked.option == option {
            (asked.low, asked.high)
        } else {
            (id, id)
        }
    }

    /// Where a configuration goes from a node.
    fn next(&self, at: usize, c: &Config) -> usize
        requires stored { is_stored self.now.nodes.slots at ≡ true }
        requires node { 2 ≤ at }
        ensures { IsStep self.now.options self.now.nodes.slots at c.now result }
    {
        match self.nodes.get(at) {
            Some(node) => {
                if c.is_on(node.option) {
                    node.high
                } else {
                    node.low
                }
            }
            None => unreachable!(),
        }
    }

    /// Whether an id's set has a configuration.
    pub fn holds(&self, id: usize, c: &Config) -> bool
        requires { is_stored self.now.nodes.slots id ≡ true }
        ensures { result ≡ reaches self.now.nodes.slots self.now.options id c.now }
    {
        let mut at = id;
        while at >= 2 {
            at = self.next(at, c);
        }
        at == 1
    }
}
