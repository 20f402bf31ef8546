//! For each number of a list of nodes the options on which its set depends, as the bits of one number.

ghost use Rattle.std.specs.Prelude.{◌≡◌, ◌<◌, ◌≤◌, Bool, IfOk, List};
ghost use Rattle.vx_list.specs.Places.{item_or};
ghost use Rattle.vx_bdd_tools.specs.Nodes.{IsReducedList};
ghost use Rattle.vx_bdd_tools.specs.Support.{IsSupport};
ghost use Rattle.vx_interact.specs.Bits.{AreOptionBits, HasOptions, IsFreeFrom, IsWithOwn, has_bit};

use std::alloc::{AllocError, Global};
use vx_bdd_tools::Node;

/// The bits of a number, in the order of the list; a number past its end has none.
pub fn bits_of(bits: &[u64], number: u64) -> u64
    ensures { result ≡ item_or bits.now number 0 }
{
    match bits.get(number as usize) {
        Some(found) => *found,
        None => 0,
    }
}

/// The bits of a node: those of its parts, and its own option.
fn node_bits(bits: &[u64], node: Node) -> u64
    requires { node.option < 64 }
    ensures { IsWithOwn node.option (item_or bits.now node.low 0) (item_or bits.now node.high 0) result }
{
    (bits_of(bits, node.low) | bits_of(bits, node.high)) | (1 << node.option)
}

/// For each number of a reduced list of nodes, from never and always on, the options on which its set depends. One pass:
/// the parts of a node stand before it.
pub fn option_bits(alloc: Global, nodes: &[Node], options: u32) -> Result<Vec<u64>, AllocError>
    requires few { options ≤ 64 }
    requires reduced { IsReducedList options nodes.now }
    ensures { IfOk result (λ bits. AreOptionBits nodes.now bits.items) }
{
    let mut bits = vec![in alloc; 0; 2]?;
    for node in nodes {
        let own = node_bits(bits.as_slice(), *node);
        bits.push(own)?;
    }
    Ok(bits)
}

/// Whether a number has a bit.
fn has_bit(bits: u64, option: u32) -> bool
    requires { option < 64 }
    ensures { result ≡ has_bit bits option }
{
    (bits >> option) & 1 == 1
}

/// The options that bits name, ascending.
pub fn options_in(alloc: Global, bits: u64, options: u32) -> Result<Vec<u32>, AllocError>
    requires { options ≤ 64 }
    ensures { IfOk result (λ found. (set : List Bool → Bool) → HasOptions set bits → IsFreeFrom set options → IsSupport set found.items) }
{
    let mut found = Vec::new(alloc);
    for option in 0..options {
        if has_bit(bits, option) {
            found.push(option)?;
        }
    }
    Ok(found)
}
