use crate::options::two_equalities;
use std::alloc::Global;
use vx_bdd_tools::support;
use vx_space::{MaskSpace, Space, SpaceFault};

/// The set of two equalities depends on the four options.
fn is_supported(alloc: Global) -> Result<bool, SpaceFault> {
    let mut space = MaskSpace::new(4);
    let all = two_equalities(&mut space)?;
    let options = support(alloc, &space, all)?;
    Ok(options.as_slice() == [0, 1, 2, 3].as_slice())
}

#[test]
fn two_equalities_depend_on_four_options(rt: HostRuntime) {
    assert!(rt; matches!(is_supported(rt.alloc()), Ok(true)));
}
