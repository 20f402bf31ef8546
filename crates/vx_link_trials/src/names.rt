use std::alloc::{AllocError, Global};
use vx_names::NameTable;

fn add(alloc: Global, names: &mut NameTable, name: &[u8]) -> Result<bool, AllocError> {
    names.add(Vec::from_slice(alloc, name)?)
}

/// Adds two names, and the first again, which is there already.
fn are_added_once(alloc: Global, names: &mut NameTable) -> Result<bool, AllocError> {
    Ok(
        add(alloc, names, b"A")?
            && add(alloc, names, b"java/lang/Object")?
            && !add(alloc, names, b"A")?,
    )
}

#[test]
fn a_name_keeps_its_first_place(rt: HostRuntime) {
    let mut names = NameTable::new(rt.alloc());
    assert!(rt; names.is_empty());
    assert!(rt; matches!(are_added_once(rt.alloc(), &mut names), Ok(true)));
    assert!(rt; names.has(b"A") && !names.has(b"B") && names.len() == 2);
    assert!(rt; names.place_of(b"java/lang/Object") == Some(1));
}
