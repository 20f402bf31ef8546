use std::alloc::{AllocError, Global};
use std::test::Fail;
use vx_sched::{LeastKey, Picker};
use vx_value::{Key, KeyPart, Kind, MethodId};

fn part(method: u32, position: u32) -> KeyPart {
    KeyPart {
        method: MethodId(method),
        position,
        depth: 0,
        kind: Kind::Call,
    }
}

/// A key of one frame, a key of two, and the key of an earlier position in the second.
fn three_keys(alloc: Global) -> Result<Vec<Key>, AllocError> {
    let mut keys = Vec::new(alloc);
    keys.push(Key::of(alloc, &[part(0, 7)])?)?;
    keys.push(Key::of(alloc, &[part(0, 9), part(1, 3)])?)?;
    keys.push(Key::of(alloc, &[part(0, 9), part(1, 0)])?)?;
    Ok(keys)
}

#[test]
fn the_deepest_and_then_the_earliest_is_first(rt: HostRuntime) -> Result<(), Fail> {
    let keys = three_keys(rt.alloc())?;
    assert!(rt; !keys.is_empty());
    assert_eq!(rt; LeastKey.pick(keys.as_slice()), 2);
    Ok(())
}
