//! The options of each piece and of each end of a report.

ghost use Rattle.std.specs.Prelude.{true, false, IfOk, OnOk, map};
ghost use Rattle.vx_report_reader.specs.Lawful.{IsLawful};
ghost use Rattle.vx_interact.specs.Bits.{AreOptionBits};
ghost use Rattle.vx_interact.specs.Interactions.{AreEntries, AreInteractions, HasMore};

use crate::bits::{bits_of, option_bits, options_in};
use std::alloc::{AllocError, Global};
use vx_list::Items;
use vx_report::Report;

/// A piece or an end of a report, and the options on which its set of configurations depends.
#[derive(Debug, Drop)]
pub struct Interaction {
    /// Whether it is a piece, and not an end.
    pub piece: bool,
    /// Its number among the pieces, or among the ends, from 1 on.
    pub index: u64,
    /// The options by their numbers, ascending, each below the number of options.
    pub options: Items<u32>,
}

/// Puts the entry of a node behind others of its kind.
fn push_entry(
    alloc: Global,
    entries: &mut Vec<Interaction>,
    report: &Report,
    bits: &[u64],
    piece: bool,
    node: u64,
) -> Result<(), AllocError>
    requires lawful { IsLawful report.now }
    requires bits { AreOptionBits report.now.nodes bits.now }
    ensures { OnOk result (HasMore report.now.nodes piece node entries.old.items entries.new.items) }
{
    let index = entries.len() as u64 + 1;
    let options = options_in(alloc, bits_of(bits, node), report.options.len() as u32)?;
    entries.push(Interaction {
        piece,
        index,
        options: Items::of(options),
    })?;
    Ok(())
}

/// The entries of the pieces, in their order.
fn of_pieces(alloc: Global, report: &Report, bits: &[u64]) -> Result<Vec<Interaction>, AllocError>
    requires lawful { IsLawful report.now }
    requires bits { AreOptionBits report.now.nodes bits.now }
    ensures { IfOk result (λ entries. AreEntries report.now.nodes true 1 (map (λ line. line.node) report.now.pieces) entries.items) }
{
    let mut entries = Vec::new(alloc);
    for line in report.pieces.as_slice() {
        push_entry(alloc, &mut entries, report, bits, true, line.node)?;
    }
    Ok(entries)
}

/// The entries of the ends, in their order.
fn of_ends(alloc: Global, report: &Report, bits: &[u64]) -> Result<Vec<Interaction>, AllocError>
    requires lawful { IsLawful report.now }
    requires bits { AreOptionBits report.now.nodes bits.now }
    ensures { IfOk result (λ entries. AreEntries report.now.nodes false 1 (map (λ line. line.node) report.now.ends) entries.items) }
{
    let mut entries = Vec::new(alloc);
    for line in report.ends.as_slice() {
        push_entry(alloc, &mut entries, report, bits, false, line.node)?;
    }
    Ok(entries)
}

/// For each piece of a report in their order, and then for each end, the options on which its set of configurations
/// depends: those whose change alone can change that a configuration belongs to it. One pass over the nodes, and one over
/// the pieces and ends.
pub fn interactions(alloc: Global, report: &Report) -> Result<Vec<Interaction>, AllocError>
    requires { IsLawful report.now }
    ensures { IfOk result (λ entries. AreInteractions report.now entries.items) }
{
    let bits = option_bits(alloc, report.nodes.as_slice(), report.options.len() as u32)?;
    let mut entries = of_pieces(alloc, report, bits.as_slice())?;
    let mut ends = of_ends(alloc, report, bits.as_slice())?;
    entries.append(&mut ends)?;
    Ok(entries)
}
