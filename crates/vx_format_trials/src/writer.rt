use crate::files::{OPTION, SMALLEST};
use std::alloc::{AllocError, Global};
use std::test::Fail;
use vx_class::read_class;
use vx_writer::write_class;

/// Whether a file is written again as it was read.
fn is_written_again(alloc: Global, bytes: &[u8]) -> Result<bool, AllocError> {
    let Ok(class) = read_class(alloc, bytes) else {
        return Ok(false);
    };
    let written = write_class(alloc, &class)?;
    Ok(written.as_slice() == bytes)
}

#[test]
fn writes_what_was_read(rt: HostRuntime) -> Result<(), Fail> {
    assert!(rt; is_written_again(rt.alloc(), &SMALLEST)?);
    assert!(rt; is_written_again(rt.alloc(), &OPTION)?);
    Ok(())
}
