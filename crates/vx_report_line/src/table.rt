//! Nodes in their order, each of them once.

ghost use Rattle.std.specs.Prelude.{◌≡◌, [], ◌∷◌, ◌++◌, Contains, IsTrue, ◌↔◌, IfOk};
ghost use Rattle.vx_report_line.specs.Tables.{IsSetOf};
ghost use Rattle.vx_report_line.specs.declared.table.NodeTable.{NodeTable};

use std::alloc::{AllocError, Global};
use std::collections::HashSet;
use vx_bdd_tools::Node;

/// Nodes in their order, with a set of them that tells in constant time whether a node is among them.
#[derive(Drop)]
pub struct NodeTable {
    pub nodes: Vec<Node>,
    pub known: HashSet<Node>,
}

/// No node.
pub fn empty_table(alloc: Global) -> NodeTable
    ensures nodes { result.nodes.items ≡ [] }
    ensures known { IsSetOf result.known result.nodes.items }
{
    NodeTable {
        nodes: Vec::new(alloc),
        known: HashSet::new(alloc),
    }
}

/// Whether a node is among those of a table.
pub fn has_node(table: &NodeTable, node: &Node) -> bool
    requires { IsSetOf table.now.known table.now.nodes.items }
    ensures { IsTrue result ↔ Contains table.now.nodes.items node.now }
{
    table.known.contains(node)
}

/// A table with one more node.
pub fn with_node(table: NodeTable, node: Node) -> Result<NodeTable, AllocError>
    requires { IsSetOf table.known table.nodes.items }
    ensures nodes { IfOk result (λ t. t.nodes.items ≡ table.nodes.items ++ node ∷ []) }
    ensures known { IfOk result (λ t. IsSetOf t.known t.nodes.items) }
{
    let NodeTable {
        mut nodes,
        mut known,
    } = table;
    known.insert(node)?;
    nodes.push(node)?;
    Ok(NodeTable { nodes, known })
}
