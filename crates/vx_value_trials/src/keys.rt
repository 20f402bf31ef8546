use std::alloc::{AllocError, Global};
use vx_value::{Key, KeyPart, Kind, MethodId};

fn part(method: u32, position: u32, depth: u32, kind: Kind) -> KeyPart {
    KeyPart {
        method: MethodId(method),
        position,
        depth,
        kind,
    }
}

/// Whether the key of the first parts stands before that of the second.
fn is_before(alloc: Global, first: &[KeyPart], second: &[KeyPart]) -> Result<bool, AllocError> {
    let first = Key::of(alloc, first)?;
    let second = Key::of(alloc, second)?;
    Ok(first < second)
}

/// Keys of one frame go by the position, the depth and the kind.
fn frames_go_by_their_parts(alloc: Global) -> Result<bool, AllocError> {
    let one = [part(0, 0, 0, Kind::Call)];
    let later = [part(0, 3, 0, Kind::Call)];
    let deeper = [part(0, 3, 1, Kind::Call)];
    let waiting = [part(0, 3, 1, Kind::Wait)];
    Ok(
        is_before(alloc, &one, &later)?
            && is_before(alloc, &later, &deeper)?
            && is_before(alloc, &deeper, &waiting)?,
    )
}

/// A key of two frames stands before any of one.
fn more_frames_go_first(alloc: Global) -> Result<bool, AllocError> {
    let two = [part(9, 9, 9, Kind::Init), part(0, 0, 0, Kind::Call)];
    is_before(alloc, &two, &[part(0, 0, 0, Kind::Call)])
}

/// A key has its parts, and is equal to the key of these.
fn is_of_its_parts(alloc: Global) -> Result<bool, AllocError> {
    let key = Key::of(alloc, &[part(0, 0, 0, Kind::Call)])?;
    let again = Key::from_vec(Vec::from_slice(alloc, key.parts())?);
    Ok(key == again && again.parts().len() == 1)
}

#[test]
fn keys_go_by_frames_then_by_parts(rt: HostRuntime) {
    assert!(rt; matches!(more_frames_go_first(rt.alloc()), Ok(true)));
    assert!(rt; matches!(frames_go_by_their_parts(rt.alloc()), Ok(true)));
    assert!(rt; matches!(is_of_its_parts(rt.alloc()), Ok(true)));
}
