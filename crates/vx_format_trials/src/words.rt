use vx_words::{are_plain, decimal_up_to, next_line, next_word};

/// Whether three lines are cut off a text, the last without a line feed.
fn are_lines_cut() -> bool {
    let Some((first, rest)) = next_line(b"a b\r\n\n c") else {
        return false;
    };
    let Some((second, rest)) = next_line(rest) else {
        return false;
    };
    let are_two = first == b"a b".as_slice() && second.is_empty();
    are_two && next_line(rest) == Some((b" c".as_slice(), b"".as_slice()))
}

fn are_words_cut() -> bool {
    next_word(b"\t ab  c") == Some((b"ab".as_slice(), b"  c".as_slice()))
        && next_word(b" ").is_none()
}

fn are_numbers_read() -> bool {
    decimal_up_to(b"64", 65) == Some(64)
        && decimal_up_to(b"99999999999999999999999", 65) == Some(65)
        && decimal_up_to(b"007", 65).is_none()
}

#[test]
fn reads_lines_words_and_numbers(rt: HostRuntime) {
    assert!(rt; are_lines_cut() && are_words_cut());
    assert!(rt; are_plain(b"\t ~") && !are_plain(b"a\x7f"));
    assert!(rt; are_numbers_read());
}
