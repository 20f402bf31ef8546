use std::alloc::Global;
use vx_model::{allowed, read_model};
use vx_space::MaskSpace;

/// The mask of what a model of two options allows.
fn allowed_by(alloc: Global, text: &[u8]) -> Option<u64> {
    let Ok(model) = read_model(alloc, text) else {
        return None;
    };
    if model.options.len() != 2 {
        return None;
    }
    allowed(&mut MaskSpace::new(2), &model).ok()
}

#[test]
fn allows_where_the_first_is_off_or_the_second_on(rt: HostRuntime) {
    let text = b"option A\noption B\nrule A -> B\n";
    assert_eq!(rt; allowed_by(rt.alloc(), text), Some(13));
}
