//! The tree of caller frames. A node never changes while it is kept, and only `sweep` drops nodes.

ghost use Rattle.std.specs.Prelude.{◌≡◌, ◌++◌, [], Some, IfOk, OnOk, OnErr, count_by, is_some, option_copied};

use slab::Slab;
use std::alloc::{AllocError, Global};
use std::marker::Model;
use vx_frame::Frame;
use vx_list::or_cut_back;
use vx_space::Space;

/// A node of the tree: a frame, whose scope may be wider than the path of a group that reaches it, and the number of its
/// own caller, if it has one.
#[derive(Drop)]
pub struct Caller<S: Space> {
    pub frame: Frame<S>,
    pub caller: Option<usize>,
}

/// The frames below the top ones, each once. Contracts see the nodes by number.
#[derive(Drop)]
pub struct Callers<S: Space> {
    pub(crate) nodes: Slab<Caller<S>>,
}

impl<S: Space> Model for Callers<S> {
    ghost use Rattle.std.specs.Prelude.{List, Option};
    ghost use Rattle.vx_group.specs.declared.callers.Caller.{Caller};

    ghost Value = { List (Option (Caller S S.Id)) };

    ghost view = { λ s. s.nodes.slots };
}

impl<S: Space> Callers<S> {
    ghost use Rattle.vx_group.specs.Callers.{node_at, IsAdded, node_ids, tree_ids};

    /// No nodes.
    pub fn new(alloc: Global) -> Callers<S>
        ensures { result ≡ [] }
    {
        Callers {
            nodes: Slab::new(alloc),
        }
    }

    /// How many nodes there are.
    pub fn len(&self) -> usize
        ensures { result ≡ count_by is_some self.now }
    {
        self.nodes.len()
    }

    /// The node of a number, if there is one.
    pub(crate) fn get(&self, number: usize) -> Option<&Caller<S>>
        ensures { option_copied result ≡ node_at self.now number }
    {
        self.nodes.get(number)
    }

    /// Adds a node under a number that is free. Want of memory leaves the tree as it was.
    pub(crate) fn add(
        &mut self,
        frame: Frame<S>,
        caller: Option<usize>,
    ) -> Result<usize, AllocError>
        ensures ok { IfOk result (λ n. IsAdded self.old self.new n (record { frame = frame; caller = caller })) }
        ensures err { OnErr result (self.new ≡ self.old) }
    {
        Ok(self.nodes.insert(Caller { frame, caller })?)
    }

    /// Appends just the ids held by the node of a number, if there is one. Want of memory leaves the list as it was.
    fn node_ids_out(&self, number: usize, ids: &mut Vec<S::Id>) -> Result<(), AllocError>
        ensures ok { OnOk result (ids.new.items ≡ ids.old.items ++ node_ids (node_at self.now number)) }
        ensures err { OnErr result (ids.new.items ≡ ids.old.items) }
    {
        match self.nodes.get(number) {
            Some(node) => node.frame.ids_out(ids),
            None => Ok(()),
        }
    }

    /// Appends just the ids held by the nodes. Want of memory leaves the list as it was.
    #[tactic(auto, using(std::proofs::lemmas::List::append_assoc, std::proofs::lemmas::List::take_at))]
    pub fn ids_out(&self, ids: &mut Vec<S::Id>) -> Result<(), AllocError>
        ensures ok { OnOk result (ids.new.items ≡ ids.old.items ++ tree_ids self.now) }
        ensures err { OnErr result (ids.new.items ≡ ids.old.items) }
    {
        let held = ids.len();
        for number in 0..self.nodes.capacity() {
            or_cut_back(self.node_ids_out(number, ids), ids, held)?;
        }
        Ok(())
    }
}
