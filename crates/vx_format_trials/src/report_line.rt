use std::alloc::{AllocError, Global};
use std::test::Fail;
use vx_bdd_tools::Node;
use vx_report::line::Line;
use vx_report_line::table::{empty_table, has_node, with_node};
use vx_report_line::words::{
    behind, cut, leading, number, number_below, root, text_in, wide_number,
};
use vx_report_line::{first_line, line_in};
use vx_value::{End, Stream};

fn are_words_cut() -> bool {
    behind(b"node ", b"node 2") == Some(b"2".as_slice())
        && cut(b"2 0\\0a") == Some((b"2".as_slice(), b"0\\0a".as_slice()))
        && leading(b"2 0 1") == Some((2, b"0 1".as_slice()))
        && root(b"0 return").is_none()
}

fn are_numbers_read() -> bool {
    wide_number(b"18446744073709551616") == Some(18446744073709551616)
        && number(b"18446744073709551616").is_none()
        && number_below(65, b"64") == Some(64)
        && number_below(65, b"064").is_none()
}

/// Whether a word spells these bytes, each of which is at least 32.
fn spells(alloc: Global, word: &[u8], bytes: &[u8]) -> Result<bool, AllocError> {
    match text_in(alloc, 32, word)? {
        Some(text) => Ok(text.bytes() == bytes),
        None => Ok(false),
    }
}

#[test]
fn reads_words(rt: HostRuntime) -> Result<(), Fail> {
    assert!(rt; are_words_cut() && are_numbers_read());
    assert!(rt; spells(rt.alloc(), b"a \\0a\\5c", b"a \n\\")?);
    assert!(rt; text_in(rt.alloc(), 33, b"a b")?.is_none());
    Ok(())
}

#[test]
fn cuts_lines(rt: HostRuntime) {
    let line = first_line(b"done\n\n");
    assert!(rt; line == Some((b"done".as_slice(), b"\n".as_slice())));
    assert!(rt; first_line(b"done").is_none());
}

fn is_piece_read(alloc: Global) -> Result<bool, AllocError> {
    match line_in(alloc, b"err 3 a\\0a")? {
        Some(Line::Printed(piece)) => {
            let is_place = piece.node == 3 && piece.stream == Stream::Err;
            Ok(is_place && piece.text.bytes() == b"a\n".as_slice())
        }
        _ => Ok(false),
    }
}

fn is_end_read(alloc: Global) -> Result<bool, AllocError> {
    match line_in(alloc, b"end 1 exit -2147483648")? {
        Some(Line::Ended(line)) => Ok(matches!(line.end, End::Exit(-2147483648))),
        _ => Ok(false),
    }
}

/// Texts that are no line of a report.
const NO_LINES: [&[u8]; 3] = [
    b"end 1 exit -0",
    b"option true",
    b"end 1 unsupported float x Main.main()V@0",
];

#[test]
fn reads_lines(rt: HostRuntime) -> Result<(), Fail> {
    assert!(rt; is_piece_read(rt.alloc())?);
    assert!(rt; is_end_read(rt.alloc())?);
    for text in NO_LINES {
        assert!(rt; line_in(rt.alloc(), text)?.is_none(), "{text:?}");
    }
    Ok(())
}

#[test]
fn keeps_nodes_once(rt: HostRuntime) -> Result<(), Fail> {
    let low = Node {
        option: 0,
        low: 1,
        high: 0,
    };
    let high = Node {
        option: 0,
        low: 0,
        high: 1,
    };
    let table = with_node(empty_table(rt.alloc()), low)?;
    assert!(rt; has_node(&table, &low) && !has_node(&table, &high));
    Ok(())
}
