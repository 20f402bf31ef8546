use std::alloc::{AllocError, Global};
use std::test::Fail;
use vx_findings::{Piece, Ranked, add};
use vx_space::{MaskSpace, Space, SpaceFault};
use vx_value::{End, Name, Stream};

/// Whether a value that is added stands under its condition.
fn is_added(alloc: Global) -> Result<bool, SpaceFault> {
    let mut space = MaskSpace::new(1);
    let on = space.option(0)?;
    let mut list = Vec::new(alloc);
    add(&mut space, &mut list, 3, on)?;
    Ok(list.len() == 1 && list[0].value == 3 && list[0].condition == on)
}

#[test]
fn a_value_stands_under_its_condition(rt: HostRuntime) -> Result<(), Fail> {
    assert!(rt; is_added(rt.alloc())?);
    Ok(())
}

fn piece(alloc: Global, stream: Stream, text: &[u8]) -> Result<Piece, AllocError> {
    Ok(Piece {
        stream,
        text: Name::of(alloc, text)?,
    })
}

/// Whether a piece on `out` stands before one on `err`.
fn is_out_first(alloc: Global) -> Result<bool, AllocError> {
    let out = piece(alloc, Stream::Out, b"b")?;
    let err = piece(alloc, Stream::Err, b"a")?;
    Ok(out.compare(&err).is_lt())
}

#[test]
fn ends_and_pieces_go_by_their_orders(rt: HostRuntime) -> Result<(), Fail> {
    assert!(rt; Ranked::compare(&End::Return, &End::Exit(-1)).is_lt());
    assert!(rt; is_out_first(rt.alloc())?);
    Ok(())
}
