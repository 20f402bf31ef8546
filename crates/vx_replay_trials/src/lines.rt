use std::alloc::{AllocError, Global};
use vx_class::read_class;
use vx_lines::read_lines;

/// A class whose method `main` has a line table with the rows 0 for line 5 and 4 for line 6.
const WITH_LINES: [u8; 277] = [
    202, 254, 186, 190, 0, 0, 0, 51, 0, 21, 7, 0, 2, 1, 0, 4, 77, 97, 105, 110, 7, 0, 4, 1, 0, 16,
    106, 97, 118, 97, 47, 108, 97, 110, 103, 47, 79, 98, 106, 101, 99, 116, 1, 0, 4, 109, 97, 105,
    110, 1, 0, 22, 40, 91, 76, 106, 97, 118, 97, 47, 108, 97, 110, 103, 47, 83, 116, 114, 105, 110,
    103, 59, 41, 86, 1, 0, 4, 67, 111, 100, 101, 9, 0, 9, 0, 11, 7, 0, 10, 1, 0, 16, 106, 97, 118,
    97, 47, 108, 97, 110, 103, 47, 83, 121, 115, 116, 101, 109, 12, 0, 12, 0, 13, 1, 0, 3, 111,
    117, 116, 1, 0, 21, 76, 106, 97, 118, 97, 47, 105, 111, 47, 80, 114, 105, 110, 116, 83, 116,
    114, 101, 97, 109, 59, 10, 0, 15, 0, 17, 7, 0, 16, 1, 0, 19, 106, 97, 118, 97, 47, 105, 111,
    47, 80, 114, 105, 110, 116, 83, 116, 114, 101, 97, 109, 12, 0, 18, 0, 19, 1, 0, 7, 112, 114,
    105, 110, 116, 108, 110, 1, 0, 4, 40, 73, 41, 86, 1, 0, 15, 76, 105, 110, 101, 78, 117, 109,
    98, 101, 114, 84, 97, 98, 108, 101, 0, 33, 0, 1, 0, 3, 0, 0, 0, 0, 0, 1, 0, 9, 0, 5, 0, 6, 0,
    1, 0, 7, 0, 0, 0, 36, 0, 6, 0, 4, 0, 0, 0, 8, 178, 0, 8, 5, 182, 0, 14, 177, 0, 0, 0, 1, 0, 20,
    0, 0, 0, 10, 0, 2, 0, 0, 0, 5, 0, 4, 0, 6, 0, 0,
];

/// Where the count of the rows stands.
const COUNT: usize = 265;

/// The line of a position in a method, where the table has so many rows by its count.
fn line(alloc: Global, count: u8, method: u16, position: u32) -> Option<u16> {
    let mut bytes = Vec::from_slice(alloc, &WITH_LINES).ok()?;
    if COUNT + 1 < bytes.len() {
        bytes[COUNT + 1] = count;
    }
    let Ok(class) = read_class(alloc, &bytes) else {
        return None;
    };
    match read_lines(alloc, &bytes, &class) {
        Ok(table) => table.line_of(method, position),
        Err(AllocError) => None,
    }
}

fn lines_are_read(alloc: Global) -> bool {
    line(alloc, 2, 0, 0) == Some(5)
        && line(alloc, 2, 0, 3) == Some(5)
        && line(alloc, 2, 0, 4) == Some(6)
        && line(alloc, 2, 0, 7) == Some(6)
        && line(alloc, 2, 1, 0).is_none()
}

#[test]
fn lines_of_positions(rt: HostRuntime) {
    assert!(rt; lines_are_read(rt.alloc()));
    assert!(rt; line(rt.alloc(), 1, 0, 4).is_none());
}
