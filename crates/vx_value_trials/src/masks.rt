use std::alloc::{AllocError, Global};
use vx_space::{Config, MaskSpace, Space, SpaceFault};

/// A configuration has the values that it is made of, and none behind them.
fn has_its_values(alloc: Global) -> Result<bool, AllocError> {
    let c = Config::new(alloc, &[true, false])?;
    let are_there = c.get(0) == Some(true) && c.get(1) == Some(false) && c.get(2).is_none();
    Ok(are_there && c.is_on(0) && !c.is_on(1) && !c.is_on(2))
}

#[test]
fn a_configuration_has_its_values(rt: HostRuntime) {
    assert!(rt; matches!(has_its_values(rt.alloc()), Ok(true)));
}

/// The sets of two options, of both, of either and of one alone.
fn sets() -> Result<(u64, u64, u64, u64, u64), SpaceFault> {
    let mut space = MaskSpace::new(2);
    let first = space.option(0)?;
    let second = space.option(1)?;
    let both = space.and(first, second)?;
    let either = space.or(first, second)?;
    let one = space.minus(first, second)?;
    Ok((first, second, both, either, one))
}

#[test]
fn masks_of_two_options(rt: HostRuntime) {
    assert!(rt; matches!(sets(), Ok((10, 12, 8, 14, 2))));
}

/// The second option's set has a configuration in which it alone is on, and the first option's has not.
fn is_held(alloc: Global) -> Result<bool, AllocError> {
    let space = MaskSpace::new(2);
    let c = Config::new(alloc, &[false, true])?;
    Ok(space.holds(12, &c) && !space.holds(10, &c))
}

#[test]
fn a_mask_has_its_configurations(rt: HostRuntime) {
    assert!(rt; matches!(is_held(rt.alloc()), Ok(true)));
}

#[test]
fn masks_are_not_counted(rt: HostRuntime) {
    let mut space = MaskSpace::new(2);
    assert!(rt; space.options() == 2 && space.never() == 0 && space.always() == 15);
    assert!(rt; space.top(8) == Some((0, 0, 12)));
    assert!(rt; space.top(0).is_none() && space.top(15).is_none());
    assert!(rt; !space.is_never(8) && space.is_never(0));
    assert!(rt; space.count() == 2 && space.base() == 2);
    assert!(rt; space.compact(&[]).is_ok());
    assert!(rt; space.count() == 2 && space.base() == 2);
}
