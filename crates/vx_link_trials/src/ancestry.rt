use std::alloc::{AllocError, Global};
use std::test::Fail;
use vx_ancestry::Ancestry;
use vx_list::Items;

/// Puts a place below the given ones.
fn put_below(
    alloc: Global,
    parents: &mut Vec<Items<usize>>,
    above: &[usize],
) -> Result<(), AllocError> {
    parents.push(Items::of(Vec::from_slice(alloc, above)?))?;
    Ok(())
}

/// Three places: 0 stands above 1, and 1 above 2; above 0 stand the given places.
fn chain(alloc: Global, above: &[usize]) -> Result<Vec<Items<usize>>, AllocError> {
    let mut parents = Vec::new(alloc);
    put_below(alloc, &mut parents, above)?;
    put_below(alloc, &mut parents, &[0])?;
    put_below(alloc, &mut parents, &[1])?;
    Ok(parents)
}

fn has_own_ancestors(
    alloc: Global,
    parents: Vec<Items<usize>>,
    wanted: [bool; 3],
) -> Result<bool, AllocError> {
    let ancestry = Ancestry::new(alloc, parents)?;
    for (place, own) in wanted.iter().enumerate() {
        if ancestry.is_own_ancestor(alloc, place)? != *own {
            return Ok(false);
        }
    }
    Ok(true)
}

#[test]
fn no_place_of_a_chain_is_its_own_ancestor(rt: HostRuntime) -> Result<(), Fail> {
    let parents = chain(rt.alloc(), &[])?;
    assert!(rt; has_own_ancestors(rt.alloc(), parents, [false, false, false])?);
    Ok(())
}

#[test]
fn places_of_a_circle_are_their_own_ancestors(rt: HostRuntime) -> Result<(), Fail> {
    let parents = chain(rt.alloc(), &[1])?;
    assert!(rt; has_own_ancestors(rt.alloc(), parents, [true, true, false])?);
    Ok(())
}
