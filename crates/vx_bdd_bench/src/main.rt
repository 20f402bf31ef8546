//! Sizes of diagrams that are known from elsewhere, and a measure of the table's speed: equalities of two blocks of
//! options in the bad order, the placing of queens, parity. The output says how many nodes each made, and how many its
//! set needs.
#![tactic(auto)]

mod problems;

ghost use Rattle.vx_space.specs.Sets.{IsKnown};

use anyhow::Result;
use problems::{equalities, parity, queens};
use vx_bdd::BddSpace;
use vx_bdd_tools::listing;
use vx_space::Space;

fn main(rt: HostRuntime) -> Result<()> {
    let mut space = BddSpace::new(rt.alloc(), 24)?;
    let set = equalities(&mut space, 12)?;
    print_sizes(&rt, "equalities", 12, &mut space, set)?;
    for size in 6..9 {
        let mut space = BddSpace::new(rt.alloc(), size * size)?;
        let set = queens(rt.alloc(), &mut space, size)?;
        print_sizes(&rt, "queens", size, &mut space, set)?;
    }
    let mut space = BddSpace::new(rt.alloc(), 64)?;
    let set = parity(&mut space, 64)?;
    print_sizes(&rt, "parity", 64, &mut space, set)
}

/// Prints how many nodes were made, how many are left after a compaction to the set, and how many a listing has.
fn print_sizes<R: Print + AllocGlobal, S: Space>(
    rt: &R,
    name: &str,
    size: u32,
    space: &mut S,
    set: S::Id,
) -> Result<()>
    requires { IsKnown (S.sets space.old) set }
{
    let made = space.count().saturating_sub(2);
    let mut roots = Vec::new(rt.alloc());
    roots.push(set)?;
    space.compact(roots.as_slice())?;
    let kept = space.count().saturating_sub(2);
    let listed = listing(rt.alloc(), space, roots.as_slice())?.nodes.len();
    println!(rt; "{name} {size}: {made} made, {kept} kept, {listed} listed")?;
    Ok(())
}
