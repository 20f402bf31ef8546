//! What a compaction keeps: the nodes under some roots are marked, and all others are dropped.

ghost use Rattle.std.specs.Prelude.{◌≡◌, ◌++◌, [], ◌∷◌, true, OnOk, IfOk, if◌then◌else◌, slice_index_or, None};
ghost use Rattle.std.specs.HashMap.{values};
ghost use Rattle.vx_bdd.specs.Diagram.{is_stored};
ghost use Rattle.vx_bdd.specs.Table.{IsIndex};
ghost use Rattle.vx_bdd.specs.Marks.{is_marked, IsClosed, AddsBelow, IsMarking, AreStored, AreUnmarked, AreNodes, IsDropped, SlotsWithout, IndexWithout};

use crate::marks::Marks;
use crate::node::Node;
use crate::table::Table;
use slab::Slab;
use std::alloc::{AllocError, Global};
use std::collections::HashMap;
use vx_list::GivenUp;

/// Marks an id and all that is below it.
fn mark(table: &Table, marks: &mut Marks, id: usize) -> Result<(), GivenUp>
    requires stored { is_stored table.now.nodes.slots id ≡ true }
    requires closed { IsClosed table.now.nodes.slots (is_marked marks.old) }
    ensures closed { OnOk result (IsClosed table.now.nodes.slots (is_marked marks.new)) }
    ensures adds { OnOk result (AddsBelow table.now.nodes.slots id (is_marked marks.old) (is_marked marks.new)) }
    ensures marked { OnOk result (is_marked marks.new id ≡ true) }
{
    if marks.has(id) {
        return Ok(());
    }
    match table.node(id) {
        Some(node) => {
            mark(table, marks, node.low)?;
            mark(table, marks, node.high)?;
        }
        None => {}
    }
    marks.add(id)?;
    Ok(())
}

/// Marks a root and all that is below it. Never and always, which most roots are, are marked before all roots.
fn mark_root(table: &Table, marks: &mut Marks, root: usize) -> Result<(), GivenUp>
    requires stored { is_stored table.now.nodes.slots root ≡ true }
    requires closed { IsClosed table.now.nodes.slots (is_marked marks.old) }
    requires never { is_marked marks.old 0 ≡ true }
    requires always { is_marked marks.old 1 ≡ true }
    ensures closed { OnOk result (IsClosed table.now.nodes.slots (is_marked marks.new)) }
    ensures adds { OnOk result (AddsBelow table.now.nodes.slots root (is_marked marks.old) (is_marked marks.new)) }
    ensures marked { OnOk result (is_marked marks.new root ≡ true) }
{
    if root > 1 {
        mark(table, marks, root)?;
    }
    Ok(())
}

/// Marks never, always, the roots and all that is below them, and nothing else.
pub(crate) fn mark_all(table: &Table, marks: &mut Marks, roots: &[usize]) -> Result<(), GivenUp>
    requires { AreStored table.now.nodes.slots roots.now }
    ensures { OnOk result (IsMarking table.now.nodes.slots roots.now (is_marked marks.new)) }
{
    marks.begin();
    mark(table, marks, 0)?;
    mark(table, marks, 1)?;
    for root in roots {
        mark_root(table, marks, *root)?;
    }
    Ok(())
}

/// Puts an id behind others, unless it is marked.
fn pick(unmarked: &mut Vec<usize>, marks: &Marks, id: usize) -> Result<(), AllocError>
    ensures { OnOk result (unmarked.new.items ≡ (if is_marked marks.now id then unmarked.old.items else unmarked.old.items ++ id ∷ [])) }
{
    if marks.has(id) {
        return Ok(());
    }
    unmarked.push(id)?;
    Ok(())
}

/// The ids of a map that have no mark.
pub(crate) fn unmarked_ids(
    alloc: Global,
    ids: &HashMap<Node, usize>,
    marks: &Marks,
) -> Result<Vec<usize>, AllocError>
    ensures { IfOk result (λ unmarked. AreUnmarked (is_marked marks.now) (values ids.now) unmarked.items) }
{
    let mut unmarked = Vec::new(alloc);
    for id in ids.values() {
        pick(&mut unmarked, marks, *id)?;
    }
    Ok(unmarked)
}

/// Drops the node of an id, if it has one.
fn drop_node(nodes: &mut Slab<Node>, ids: &mut HashMap<Node, usize>, id: usize)
    ensures nodes { SlotsWithout id nodes.old.slots nodes.new.slots }
    ensures ids { IndexWithout (slice_index_or nodes.old.slots id None) ids.old ids.new }
{
    if let Some(node) = nodes.try_remove(id) {
        ids.remove(&node);
    }
}

/// Drops the nodes of some ids.
pub(crate) fn drop_nodes(nodes: &mut Slab<Node>, ids: &mut HashMap<Node, usize>, dropped: &[usize])
    requires index { IsIndex nodes.old.slots ids.old }
    requires inner { AreNodes dropped.now }
    ensures index { IsIndex nodes.new.slots ids.new }
    ensures dropped { IsDropped dropped.now nodes.old.slots nodes.new.slots }
{
    for id in dropped {
        drop_node(nodes, ids, *id);
    }
}
