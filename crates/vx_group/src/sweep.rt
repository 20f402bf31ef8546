//! Dropping the caller frames that no group reaches: the nodes reached are marked first, then the others are dropped.

ghost use Rattle.std.specs.Prelude.{◌≡◌, ℕ, ◌<◌, true, length, None, if◌then◌else◌, ◌&&◌, not, nat_eq, IfOk, OnOk, OnErr};
ghost use Rattle.slab.specs.Slab.{get as slot};
ghost use Rattle.std.specs.HashSet.{contains};
ghost use Rattle.vx_group.specs.Callers.{AreNodes};
ghost use Rattle.vx_group.specs.Sweep.{IsSwept, IsReached, StandIn, caller_at, IsMarked, IsClosed, AddsReached};

use crate::callers::{Caller, Callers};
use crate::group::Group;
use slab::Slab;
use std::alloc::{AllocError, Global};
use std::collections::HashSet;
use vx_space::Space;

/// Marks a caller and all below it.
fn mark<S: Space>(
    callers: &Callers<S>,
    marks: &mut HashSet<usize>,
    caller: Option<usize>,
    depth: usize,
) -> Result<(), AllocError>
    requires nodes { AreNodes callers.now depth caller }
    requires closed { IsClosed callers.now (contains nat_eq marks.old) }
    ensures closed { OnOk result (IsClosed callers.now (contains nat_eq marks.new)) }
    ensures adds { OnOk result (AddsReached callers.now caller (contains nat_eq marks.old) (contains nat_eq marks.new)) }
    ensures marked { OnOk result (IsMarked (contains nat_eq marks.new) caller) }
{
    let Some(number) = caller else {
        return Ok(());
    };
    if marks.contains(&number) {
        return Ok(());
    }
    let Some(node) = callers.get(number) else {
        unreachable!()
    };
    mark(callers, marks, node.caller, depth - 1)?;
    marks.insert(number)?;
    Ok(())
}

/// The marks of all nodes that the groups reach.
fn mark_all<S: Space>(
    alloc: Global,
    callers: &Callers<S>,
    groups: &[Group<S>],
) -> Result<HashSet<usize>, AllocError>
    requires { StandIn callers.now groups.now }
    ensures closed { IfOk result (λ marks. IsClosed callers.now (contains nat_eq marks)) }
    ensures marked { IfOk result (λ marks. (k : ℕ) → k < length groups.now → IsMarked (contains nat_eq marks) (caller_at groups.now k)) }
    ensures reached { IfOk result (λ marks. (n : ℕ) → contains nat_eq marks n ≡ true → IsReached callers.now groups.now n) }
{
    let mut marks = HashSet::new(alloc);
    for group in groups {
        mark(callers, &mut marks, group.caller(), group.callers_count())?;
    }
    Ok(marks)
}

/// Drops the node of a number, if it has no mark.
fn drop_unmarked<S: Space>(nodes: &mut Slab<Caller<S>>, marks: &HashSet<usize>, number: usize)
    ensures slots { (x : ℕ) → slot nodes.new x ≡ (if nat_eq x number && not (contains nat_eq marks.now x) then None else slot nodes.old x) }
    ensures capacity { nodes.new.capacity ≡ nodes.old.capacity }
{
    if marks.contains(&number) {
        return;
    }
    nodes.try_remove(number);
}

/// Drops all nodes that have no mark.
fn keep_marked<S: Space>(nodes: &mut Slab<Caller<S>>, marks: &HashSet<usize>)
    ensures { (x : ℕ) → slot nodes.new x ≡ (if contains nat_eq marks.now x then slot nodes.old x else None) }
{
    for number in 0..nodes.capacity() {
        drop_unmarked(nodes, marks, number);
    }
}

impl<S: Space> Callers<S> {
    /// Keeps just the nodes that the groups reach, under their numbers, in time linear in the nodes. Want of memory leaves
    /// the tree as it was.
    pub fn sweep(&mut self, alloc: Global, groups: &[Group<S>]) -> Result<(), AllocError>
        requires { StandIn self.old groups.now }
        ensures ok { OnOk result (IsSwept self.old self.new groups.now) }
        ensures err { OnErr result (self.new ≡ self.old) }
    {
        let marks = mark_all(alloc, self, groups)?;
        keep_marked(&mut self.nodes, &marks);
        Ok(())
    }
}
