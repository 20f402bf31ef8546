//! A number at each configuration.

ghost use Rattle.std.specs.Prelude.{◌≡◌, ◌+◌, ◌<◌, ◌≤◌, ◌^◌, ◌&&◌, Bool, IfOk, IsTrue, List, length, min, nat_le, ℕ, ◌-◌, true, false, suc};
ghost use Rattle.vx_space.specs.Sets.{IsKnown, IsSet, Extends};
ghost use Rattle.vx_tally.specs.Tally.{AreNodes, IsTally, number_at, edge_at, sum_of};
ghost use Rattle.vx_tally.specs.Answers.{IsMostIn};

use crate::choosing::{begun, part};
use crate::greatest::{greater, most_of};
use crate::memo::{Memo, Question};
use crate::node::{Edge, TallyNode};
use crate::reached::{bounds, reached};
use std::alloc::{AllocError, Global};
use std::marker::Model;
use std::rc::Rc;
use vx_space::{Config, Space, SpaceFault};

/// A number at each configuration, as a diagram whose edges have numbers: the number is the sum along the way. It holds no space, and
/// shares its nodes with its copies. Contracts see the nodes and the edge that leads to them.
#[derive(Drop)]
pub struct Tally {
    nodes: Rc<Vec<TallyNode>, Global>,
    root: Edge,
}

impl Model for Tally {
    ghost use Rattle.vx_tally.specs.Tally.{TallyView};

    ghost Value = { TallyView };

    ghost view = { λ tally. record { nodes = tally.nodes.value.items; root = tally.root } };
}

impl Tally {
    /// The same number at each configuration.
    pub fn constant(alloc: Global, number: u64) -> Result<Tally, AllocError>
        ensures number { IfOk result (λ r. (c : List Bool) → number_at r c ≡ number) }
        ensures valid { (options : ℕ) → IfOk result (IsTally options) }
    {
        Tally::of(
            alloc,
            &[],
            Edge {
                place: 0,
                more: number,
            },
        )
    }

    /// The tally of some nodes.
    fn of(alloc: Global, nodes: &[TallyNode], root: Edge) -> Result<Tally, AllocError>
        ensures { IfOk result (λ r. r ≡ record { nodes = nodes.now; root = root }) }
    {
        let nodes = Vec::from_slice(alloc, nodes)?;
        Ok(Tally {
            nodes: Rc::new(alloc, nodes)?,
            root,
        })
    }

    /// The same tally once more. It needs no memory, and fails where the count of those that share its nodes is full.
    pub fn same(&self) -> Result<Tally, AllocError>
        ensures { IfOk result (λ r. r ≡ self.now) }
    {
        Ok(Tally {
            nodes: self.nodes.clone()?,
            root: self.root,
        })
    }

    /// The nodes, of which each has the place behind its own number.
    pub fn nodes(&self) -> &[TallyNode]
        ensures { result.now ≡ self.now.nodes }
    {
        self.nodes.as_ref().as_slice()
    }

    /// The edge that leads to the nodes.
    pub fn root(&self) -> Edge
        ensures { result ≡ self.now.root }
    {
        self.root
    }

    /// Whether nodes and root are those of another tally. Where they are, the numbers are equal at each configuration.
    pub fn is_same(&self, other: &Tally) -> bool
        ensures { IsTrue result → self.now ≡ other.now }
    {
        self.root() == other.root() && self.nodes() == other.nodes()
    }

    /// One more at each configuration, where that is below 2^64.
    pub fn add_one(&mut self)
        ensures number { (c : List Bool) → suc (number_at self.old c) < 2 ^ 64 → number_at self.new c ≡ number_at self.old c + 1 }
        ensures nodes { self.new.nodes ≡ self.old.nodes }
        ensures root { self.new.root.place ≡ self.old.root.place }
    {
        self.root = self.root.raised(1);
    }

    /// The number of a tally over so many options at a configuration, where that is below 2^64, else the greatest number that there is.
    pub fn at(&self, options: u32, c: &Config) -> u64
        requires { IsTally options self.now }
        ensures { result ≡ min (number_at self.now c.now) (2 ^ 64 - 1) }
    {
        let mut edge = self.root();
        let mut sum: u64 = 0;
        'walking: loop {
            let so_far = sum.saturating_add(edge.more);
            if edge.place == 0 {
                return so_far;
            }
            let next = edge_taken(options, self.nodes(), edge.place, c);
            sum = so_far;
            edge = next;
        }
    }

    /// What the first tally says in the first set, and elsewhere what the second one says in the second set; outside of both sets any numbers.
    /// What is 2^64 or more may become another such number. The nodes are as many as the walk down all four has to tell apart.
    pub fn chosen<S: Space>(
        alloc: Global,
        space: &S,
        a: S::Id,
        first: &Tally,
        b: S::Id,
        second: &Tally,
    ) -> Result<Tally, AllocError>
        requires first_set { IsKnown (S.sets space.now) a }
        requires second_set { IsKnown (S.sets space.now) b }
        requires first { IsTally (S.sets space.now).options first.now }
        requires second { IsTally (S.sets space.now).options second.now }
        ensures valid { IfOk result (IsTally (S.sets space.now).options) }
        ensures in_first { IfOk result (λ r. (c : List Bool) → (S.sets space.now).test a c ≡ true → number_at first.now c < 2 ^ 64 → number_at r c ≡ number_at first.now c) }
        ensures in_second { IfOk result (λ r. (c : List Bool) → (S.sets space.now).test a c ≡ false → (S.sets space.now).test b c ≡ true → number_at second.now c < 2 ^ 64 → number_at r c ≡ number_at second.now c) }
    {
        let mut work = begun(alloc, space, first.nodes(), second.nodes())?;
        let asked = Question {
            a,
            b,
            first: first.root(),
            second: second.root(),
        };
        let edge = part(space, first.nodes(), second.nodes(), &mut work, 0, asked)?;
        Tally::of(alloc, work.made.nodes(), edge.unwrap_or(END))
    }

    /// The configurations of a set at which the number is at least a bound.
    pub fn reaching<S: Space>(
        &self,
        alloc: Global,
        space: &mut S,
        within: S::Id,
        bound: u64,
    ) -> Result<S::Id, SpaceFault>
        requires tally { IsTally (S.sets space.old).options self.now }
        requires known { IsKnown (S.sets space.old) within }
        ensures extends { Extends (S.sets space.old) (S.sets space.new) }
        ensures ok { IfOk result (λ r. IsSet (S.sets space.new) r (λ c. (S.sets space.old).test within c && nat_le bound (number_at self.now c))) }
    {
        let bounds = bounds(alloc, space.options(), self.nodes())?;
        let root = self.root();
        let to = Edge {
            place: root.place,
            more: bound.saturating_sub(root.more),
        };
        let mut known = Memo::new(alloc);
        reached(
            space,
            self.nodes(),
            bounds.as_slice(),
            &mut known,
            0,
            within,
            to,
        )
    }

    /// The greatest number in a set, or none where the set is never. Where numbers of 2^64 and more are in the set, it is at most one of them.
    pub fn most_in<S: Space>(
        &self,
        alloc: Global,
        space: &S,
        within: S::Id,
    ) -> Result<Option<u64>, AllocError>
        requires tally { IsTally (S.sets space.now).options self.now }
        requires known { IsKnown (S.sets space.now) within }
        ensures { IfOk result (IsMostIn (S.sets space.now) (number_at self.now) within) }
    {
        let mut known = Memo::new(alloc);
        let root = self.root();
        let most = most_of(space, self.nodes(), &mut known, 0, within, root.place)?;
        Ok(greater(most, root.more, None, 0))
    }
}

/// The edge that a configuration takes from a place that has a node.
fn edge_taken(options: u32, nodes: &[TallyNode], place: usize, c: &Config) -> Edge
    requires nodes { AreNodes options nodes.now }
    requires given { place ≤ length nodes.now }
    requires inner { 0 < place }
    ensures falls { result.place < place }
    ensures number { edge_at nodes.now result c.now ≡ sum_of nodes.now place c.now }
{
    let node = nodes[place - 1];
    if c.is_on(node.option) {
        node.high
    } else {
        node.low
    }
}

/// The edge to the end that adds nothing.
const END: Edge = Edge { place: 0, more: 0 };
