//! The options on which a set depends.

ghost use Rattle.std.specs.Prelude.{◌≡◌, ◌==◌, IfOk};
ghost use Rattle.std.specs.List.{list_any};
ghost use Rattle.vx_space.specs.Sets.{IsKnown};
ghost use Rattle.vx_bdd_tools.specs.Support.{IsSupport};

use crate::node::Node;
use crate::numbering::listing;
use std::alloc::{AllocError, Global};
use vx_space::Space;

/// The options on which the set depends, ascending: those that the nodes of its reduced diagram ask.
pub fn support<S: Space>(alloc: Global, space: &S, id: S::Id) -> Result<Vec<u32>, AllocError>
    requires { IsKnown (S.sets space.now) id }
    ensures { IfOk result (λ options. IsSupport ((S.sets space.now).test id) options.items) }
{
    let mut roots = Vec::new(alloc);
    roots.push(id)?;
    let list = listing(alloc, space, roots.as_slice())?;
    let mut options = Vec::new(alloc);
    for option in 0..space.options() {
        if is_asked(list.nodes.as_slice(), option) {
            options.push(option)?;
        }
    }
    Ok(options)
}

/// Whether a node asks the option.
fn is_asked(nodes: &[Node], option: u32) -> bool
    ensures { result ≡ list_any (λ node. node.option == option) nodes.now }
{
    nodes.iter().any(|node| node.option == option)
}
