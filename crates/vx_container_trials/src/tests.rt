use crate::{conds, frames, rows, sets};
use std::test::Fail;
use vx_bdd::BddSpace;
use vx_space::MaskSpace;

#[test]
fn conditional_values(rt: HostRuntime) -> Result<(), Fail> {
    assert!(rt; conds::are_right(rt.alloc(), &mut MaskSpace::new(2))?);
    Ok(())
}

#[test]
fn rows_of_values(rt: HostRuntime) -> Result<(), Fail> {
    assert!(rt; rows::are_right(rt.alloc(), &mut MaskSpace::new(2))?);
    Ok(())
}

#[test]
fn frames_of_a_method(rt: HostRuntime) -> Result<(), Fail> {
    assert!(rt; frames::are_right(rt.alloc(), &mut MaskSpace::new(2))?);
    Ok(())
}

#[test]
fn options_and_members_of_sets(rt: HostRuntime) -> Result<(), Fail> {
    let alloc = rt.alloc();
    assert!(rt; sets::are_right(alloc, &mut MaskSpace::new(2))?);
    assert!(rt; sets::are_right(alloc, &mut BddSpace::new(alloc, 2)?)?);
    Ok(())
}
