//! The numbering of a report's nodes, judged where a node is named.

ghost use Rattle.std.specs.Prelude.{ℕ, ◌<◌, ◌^◌, length, MatchOption};
ghost use Rattle.vx_report_line.specs.Falls.{IsFalling};
ghost use Rattle.vx_bdd_tools.specs.Numbering.{Numbers};

use vx_bdd_tools::Node;
use vx_report::meaning::node_with;

/// Where the numbers below `given` are given, the bound of those that are given after numbering from a node; `None`
/// where the nodes don't stand in that order. It calls itself at most as deep as the options of the nodes.
pub fn number_from(nodes: &[Node], given: u64, node: u64) -> Option<u64>
    requires falls { IsFalling nodes.now }
    requires room { length nodes.now < 2 ^ 62 }
    ensures { MatchOption result ((m : ℕ) → Numbers nodes.now given node m → ⊥) (λ m. Numbers nodes.now given node m) }
{
    if node < given {
        return Some(given);
    }
    let Some(inner) = node_with(nodes, node) else {
        return None;
    };
    let Some(between) = number_from(nodes, given, inner.low) else {
        return None;
    };
    let Some(last) = number_from(nodes, between, inner.high) else {
        return None;
    };
    if last == node { Some(node + 1) } else { None }
}
