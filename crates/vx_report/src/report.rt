//! What a report says.

ghost use Rattle.std.specs.Prelude.{◌≡◌, []};
ghost use Rattle.vx_list.specs.Places.{item_or};

use vx_bdd_tools::Node;
use vx_list::Items;
use vx_value::{End, Name, Stream};

/// A text that was written in one round, and the node of the configurations that wrote it.
#[derive(Debug, Drop)]
pub struct Piece {
    pub node: u64,
    pub stream: Stream,
    pub text: Name,
}

/// An end, and the node of the configurations whose runs ended so.
#[derive(Debug, Drop)]
pub struct EndLine {
    pub node: u64,
    pub end: End,
}

/// A number of attempts, and the node of the configurations whose runs used so many.
#[derive(Clone, Copy, Debug)]
pub struct AttemptLine {
    pub node: u64,
    pub attempts: u64,
}

/// A report. Node 0 is never and node 1 is always; the nodes of the list are numbered from 2 on.
#[derive(Debug, Drop)]
pub struct Report {
    /// 1, or 2 for a report with numbers of attempts.
    pub version: u8,
    /// The names of the options, at most 64 of them.
    pub options: Items<Name>,
    /// The greatest number of attempts of each run, from 1 to 1,000,000,000.
    pub limit: u64,
    /// How many rounds were made.
    pub rounds: u128,
    pub nodes: Items<Node>,
    /// By rounds; within a round `out` before `err`, then by ascending texts.
    pub pieces: Items<Piece>,
    /// In ascending order, and at least one.
    pub ends: Items<EndLine>,
    /// In ascending order, and at least one in version 2; none in version 1.
    pub attempts: Items<AttemptLine>,
}

/// The name of an option; one that isn't there has none.
pub fn name_of(names: &[Name], option: u32) -> &[u8]
    ensures { result.now ≡ item_or names.now option [] }
{
    match names.get(option as usize) {
        Some(name) => name.bytes(),
        None => &[],
    }
}
