use crate::{callers, tops};
use std::test::Fail;
use vx_bdd::BddSpace;
use vx_space::MaskSpace;

#[test]
fn attempts_tops_and_keys_of_groups(rt: HostRuntime) -> Result<(), Fail> {
    let alloc = rt.alloc();
    assert!(rt; tops::are_right(alloc, &mut MaskSpace::new(2))?);
    assert!(rt; tops::are_right(alloc, &mut BddSpace::new(alloc, 2)?)?);
    Ok(())
}

#[test]
fn callers_of_groups(rt: HostRuntime) -> Result<(), Fail> {
    let alloc = rt.alloc();
    assert!(rt; callers::are_right(alloc, &mut MaskSpace::new(2))?);
    assert!(rt; callers::are_right(alloc, &mut BddSpace::new(alloc, 2)?)?);
    Ok(())
}
