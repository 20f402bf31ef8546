ghost use Rattle.vx_space.specs.Sets.{IsKnown};

use crate::options::two_equalities;
use std::alloc::{AllocError, Global};
use std::test::Fail;
use vx_bdd::BddSpace;
use vx_space::{Config, Space, SpaceFault};

#[test]
fn a_new_space_has_two_nodes(rt: HostRuntime) -> Result<(), Fail> {
    let space = BddSpace::new(rt.alloc(), 4)?;
    assert!(rt; space.options() == 4 && space.count() == 2 && space.base() == 2);
    Ok(())
}

/// Whether the set of two equalities has a configuration where they hold, and not one where the second fails.
fn is_right(alloc: Global, space: &BddSpace, all: usize) -> Result<bool, AllocError>
    requires { IsKnown (⟦<BddSpace as Space>⟧.sets space.now) all }
{
    let equal = Config::new(alloc, &[true, false, true, false])?;
    let unequal = Config::new(alloc, &[true, false, true, true])?;
    Ok(space.holds(all, &equal) && !space.holds(all, &unequal))
}

/// The nodes of two equalities are counted, and a compaction to their set keeps it.
fn is_kept(alloc: Global) -> Result<bool, SpaceFault> {
    let mut space = BddSpace::new(alloc, 4)?;
    let all = two_equalities(&mut space)?;
    let begins = matches!(space.top(all), Some((0, _, _))) && !space.is_never(all);
    let before = is_right(alloc, &space, all)?;
    space.compact(&[all])?;
    let are_counted = space.count() == 11 && space.base() == 11;
    Ok(begins && before && are_counted && is_right(alloc, &space, all)?)
}

#[test]
fn counts_the_nodes_of_two_equalities(rt: HostRuntime) {
    assert!(rt; matches!(is_kept(rt.alloc()), Ok(true)));
}
