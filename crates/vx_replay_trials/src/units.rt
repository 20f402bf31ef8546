use std::alloc::{AllocError, Global};
use vx_units::{
    decimal, difference, dotted, ends_with, hash, int_in, joined, of_bytes, of_length, place_of,
    place_of_point, reversed, without_unit,
};

fn questions(ab: &[u16], abc: &[u16]) -> bool {
    hash(ab) == 3105
        && difference(ab, abc) == -1
        && difference(abc, ab) == 1
        && difference(&[97, 100], ab) == 2
        && ends_with(abc, &[98, 99])
        && !ends_with(ab, abc)
}

fn places(abc: &[u16]) -> bool {
    place_of(&[98, 99], abc) == Some(1)
        && place_of(&[], abc) == Some(0)
        && place_of(&[], &[]) == Some(0)
        && place_of(&[99, 98], abc).is_none()
        && place_of_point(&[97, 0xD83D, 0xDE00], 0x1_F600) == Some(1)
        && place_of_point(abc, -1).is_none()
        && place_of_point(abc, 99) == Some(2)
}

fn numbers() -> bool {
    int_in(&[45, 50, 49, 52, 55, 52, 56, 51, 54, 52, 56]) == Some(i32::MIN)
        && int_in(&[50, 49, 52, 55, 52, 56, 51, 54, 52, 56]).is_none()
        && int_in(&[43, 55]) == Some(7)
        && int_in(&[45]).is_none()
        && int_in(&[]).is_none()
        && int_in(&[49, 47]).is_none()
}

fn are(made: Result<Vec<u16>, AllocError>, expected: &[u16]) -> bool {
    match made {
        Ok(made) => made.as_slice() == expected,
        Err(AllocError) => false,
    }
}

fn texts(alloc: Global) -> bool {
    are(joined(alloc, &[1], &[2, 3]), &[1, 2, 3])
        && are(of_bytes(alloc, b"ab"), &[97, 98])
        && are(of_length(alloc, &[1, 2], 1), &[1])
        && are(of_length(alloc, &[1], 3), &[1, 0, 0])
        && are(without_unit(alloc, &[1, 2, 3], 1), &[1, 3])
        && are(decimal(alloc, -12i64), &[45, 49, 50])
        && are(dotted(alloc, &[97, 47, 98]), &[97, 46, 98])
}

fn pairs(alloc: Global) -> bool {
    are(
        reversed(alloc, &[97, 0xD83D, 0xDE00, 98]),
        &[98, 0xD83D, 0xDE00, 97],
    ) && are(reversed(alloc, &[0xDE00, 0xD83D]), &[0xD83D, 0xDE00])
}

#[test]
fn texts_as_units(rt: HostRuntime) {
    assert!(rt; questions(&[97, 98], &[97, 98, 99]));
    assert!(rt; places(&[97, 98, 99]));
    assert!(rt; numbers());
    assert!(rt; texts(rt.alloc()));
    assert!(rt; pairs(rt.alloc()));
}
