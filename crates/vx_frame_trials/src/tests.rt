use crate::trials::are_right;
use std::test::Fail;
use vx_bdd::BddSpace;
use vx_space::MaskSpace;

#[test]
fn frames_of_groups(rt: HostRuntime) -> Result<(), Fail> {
    let alloc = rt.alloc();
    assert!(rt; are_right(alloc, &mut MaskSpace::new(2))?);
    assert!(rt; are_right(alloc, &mut BddSpace::new(alloc, 2)?)?);
    Ok(())
}
