//! What a report says of one configuration. None of these calls takes memory.

ghost use Rattle.std.specs.Prelude.{◌≡◌, option_copied};
ghost use Rattle.vx_bdd_tools.specs.Nodes.{node_of, child, holds};
ghost use Rattle.vx_report.specs.Projection.{end_at, attempts_in, attempts_at};

use crate::report::{AttemptLine, Report};
use vx_bdd_tools::Node;
use vx_space::Config;
use vx_value::End;

/// The node with a number.
pub fn node_with(nodes: &[Node], id: u64) -> Option<&Node>
    ensures { option_copied result ≡ node_of nodes.now id }
{
    let place = id.checked_sub(2)?;
    nodes.get(place as usize)
}

/// Where a configuration goes from a number.
fn step(nodes: &[Node], id: u64, c: &Config) -> u64
    ensures { result ≡ child (node_of nodes.now id) id c.now }
{
    match node_with(nodes, id) {
        None => id,
        Some(node) if c.is_on(node.option) => node.high,
        Some(node) => node.low,
    }
}

/// Whether a number holds a configuration.
pub fn holds_in(nodes: &[Node], node: u64, c: &Config) -> bool
    ensures { result ≡ holds nodes.now node c.now }
{
    let mut at = node;
    for _ in 0..node {
        if at < 2 {
            return at == 1;
        }
        at = step(nodes, at, c);
    }
    at == 1
}

fn attempts_among(nodes: &[Node], lines: &[AttemptLine], c: &Config) -> Option<u64>
    ensures { result ≡ attempts_in nodes.now lines.now c.now }
{
    let first = lines.iter().find(|line| holds_in(nodes, line.node, c));
    first.map(|line| line.attempts)
}

impl Report {
    /// Whether a node of the report holds a configuration: 0 never does, 1 always does, and any other goes on to its low
    /// part where its option is off and to its high part where it is on (Bryant 1986).
    pub fn holds(&self, node: u64, c: &Config) -> bool
        ensures { result ≡ holds self.now.nodes node c.now }
    {
        holds_in(self.nodes.as_slice(), node, c)
    }

    /// The first end whose node holds a configuration.
    pub fn end_of(&self, c: &Config) -> Option<&End>
        ensures { option_copied result ≡ end_at self.now c.now }
    {
        let nodes = self.nodes.as_slice();
        let first = self
            .ends
            .as_slice()
            .iter()
            .find(|line| holds_in(nodes, line.node, c));
        first.map(|line| &line.end)
    }

    /// The first number of attempts whose node holds a configuration. Version 1 has none.
    pub fn attempts_of(&self, c: &Config) -> Option<u64>
        ensures { result ≡ attempts_at self.now c.now }
    {
        if self.version != 2 {
            return None;
        }
        attempts_among(self.nodes.as_slice(), self.attempts.as_slice(), c)
    }
}
