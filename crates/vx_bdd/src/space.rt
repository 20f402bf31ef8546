//! The space of diagrams: each call of `Space` by a call of the table.

ghost use Rattle.std.specs.Prelude.{◌≡◌, ◌≤◌, IfOk};
ghost use Rattle.std.proofs.lemmas.Map.Views.{exact_unsigned_eq};
ghost use Rattle.std.proofs.Props.{props};
ghost use Rattle.vx_bdd.specs.declared.node.Op.TheVariants.{And, Minus, Or};
ghost use Rattle.vx_bdd.specs.Apply.{AreRight};
ghost use Rattle.vx_bdd.specs.Space.{sets_of};
ghost use Rattle.vx_bdd.specs.Lawful.{lawful_sets};

use crate::apply::apply;
use crate::cache::Cache;
use crate::compaction::mark_all;
use crate::marks::Marks;
use crate::node::{Node, Op};
use crate::table::Table;
use slab::Slab;
use std::alloc::{AllocError, Global};
use std::collections::HashMap;
use vx_space::{Config, Space, SpaceFault};

/// Sets of configurations as reduced ordered diagrams (Bryant 1986), which share one table of distinct nodes. An id is the
/// number of a node, and `count` is the number of known sets. The table has no bound but memory. What operations gave is kept in
/// caches from compaction to compaction; while they have room, an operation on two sets takes time linear in the product of the
/// numbers of their nodes. A compaction takes time linear in the roots and the nodes that there are.
#[derive(Drop)]
pub struct BddSpace {
    alloc: Global,
    table: Table,
    ands: Cache,
    ors: Cache,
    minuses: Cache,
    marks: Marks,
    base: u64,
    ghost ands_right: { AreRight And table.options table.nodes.slots ands.answers.items } by { Prim.hlevel props },
    ghost ors_right: { AreRight Or table.options table.nodes.slots ors.answers.items } by { Prim.hlevel props },
    ghost minuses_right: { AreRight Minus table.options table.nodes.slots minuses.answers.items } by { Prim.hlevel props },
}

impl BddSpace {
    ghost use Rattle.vx_bdd.specs.Space.{IsNewSpace};

    /// The space of so many options that knows never and always alone.
    pub fn new(alloc: Global, options: u32) -> Result<BddSpace, AllocError>
        requires { options ≤ 64 }
        ensures { IfOk result (λ s. IsNewSpace options (⟦<BddSpace as Space>⟧.sets s)) }
    {
        let end = Node {
            option: 0,
            low: 0,
            high: 0,
        };
        let mut nodes = Slab::new(alloc);
        let never = nodes.insert(end)?;
        // No entry is vacant then, so the next one is number 1.
        nodes.shrink_to_fit();
        nodes.reserve(1)?;
        let always = nodes.insert_reserved(end);
        if never != 0 || always != 1 {
            unreachable!();
        }
        let table = Table {
            options,
            nodes,
            ids: HashMap::new(alloc),
            roots: Vec::new(alloc),
            grown: true,
        };
        Ok(BddSpace {
            alloc,
            table,
            ands: Cache::new(alloc),
            ors: Cache::new(alloc),
            minuses: Cache::new(alloc),
            marks: Marks::new(alloc),
            base: 2,
        })
    }
}

impl Space for BddSpace {
    type Id = usize;

    ghost sets = { λ s. sets_of s.table.options s.table.nodes.slots s.base };

    ghost lawful = { λ s. lawful_sets s.table.options s.table.nodes.slots s.base s.table.few s.table.reduced };

    ghost exact = { exact_unsigned_eq };

    fn options(&self) -> u32 {
        self.table.options
    }

    fn never(&self) -> usize {
        0
    }

    fn always(&self) -> usize {
        1
    }

    fn option(&mut self, i: u32) -> Result<usize, SpaceFault> {
        self.table.make(i, 0, 1)
    }

    fn and(&mut self, a: usize, b: usize) -> Result<usize, SpaceFault> {
        apply(&mut self.table, &mut self.ands, Op::And, a, b)
    }

    fn or(&mut self, a: usize, b: usize) -> Result<usize, SpaceFault> {
        apply(&mut self.table, &mut self.ors, Op::Or, a, b)
    }

    fn minus(&mut self, a: usize, b: usize) -> Result<usize, SpaceFault> {
        apply(&mut self.table, &mut self.minuses, Op::Minus, a, b)
    }

    fn is_never(&self, a: usize) -> bool {
        a == 0
    }

    fn holds(&self, a: usize, c: &Config) -> bool {
        self.table.holds(a, c)
    }

    fn top(&self, a: usize) -> Option<(u32, usize, usize)> {
        if a < 2 {
            return None;
        }
        match self.table.nodes.get(a) {
            Some(node) => Some((node.option, node.low, node.high)),
            None => None,
        }
    }

    fn count(&self) -> u64 {
        self.table.nodes.len() as u64
    }

    fn base(&self) -> u64 {
        self.base
    }

    fn compact(&mut self, roots: &[usize]) -> Result<(), AllocError> {
        if self.table.is_swept(roots) {
            self.base = self.count();
            return Ok(());
        }
        mark_all(&self.table, &mut self.marks, roots)?;
        let all_kept = self.table.sweep(self.alloc, &self.marks, roots)?;
        self.ands.forget(all_kept);
        self.ors.forget(all_kept);
        self.minuses.forget(all_kept);
        self.base = self.count();
        Ok(())
    }
}
