use vx_value::TextTable;

/// The number of a text that is put and read again.
fn put_and_read(table: &mut TextTable, units: &[u16]) -> Option<u64> {
    let Ok(number) = table.put(units) else {
        return None;
    };
    if table.text(number) == units {
        Some(number)
    } else {
        None
    }
}

#[test]
fn a_text_has_one_number(rt: HostRuntime) {
    let mut table = TextTable::new(rt.alloc());
    let first = put_and_read(&mut table, &[97, 98]);
    let empty = put_and_read(&mut table, &[]);
    let pair = put_and_read(&mut table, &[0xd83d, 0xde00, 0xffff]);
    assert!(rt; first == Some(0) && empty == Some(1) && pair == Some(2));
    let empty = put_and_read(&mut table, &[]);
    let first = put_and_read(&mut table, &[97, 98]);
    assert!(rt; first == Some(0) && empty == Some(1) && table.len() == 3);
}

/// The number of a text with units behind it, which is read again as the whole text.
fn append_and_read(
    table: &mut TextTable,
    number: u64,
    units: &[u16],
    whole: &[u16],
) -> Option<u64> {
    if number >= table.len() {
        return None;
    }
    let Ok(appended) = table.append(number, units) else {
        return None;
    };
    if table.text(appended) == whole {
        Some(appended)
    } else {
        None
    }
}

#[test]
fn texts_have_one_beginning(rt: HostRuntime) {
    let mut table = TextTable::new(rt.alloc());
    let first = put_and_read(&mut table, &[97]);
    let longer = append_and_read(&mut table, 0, &[98], &[97, 98]);
    let other = append_and_read(&mut table, 0, &[99, 100], &[97, 99, 100]);
    let longest = append_and_read(&mut table, 1, &[100], &[97, 98, 100]);
    assert!(rt; first == Some(0) && longer == Some(1) && other == Some(2) && longest == Some(3));
    let same = append_and_read(&mut table, 2, &[], &[97, 99, 100]);
    let longer = put_and_read(&mut table, &[97, 98]);
    assert!(rt; same == Some(2) && longer == Some(1) && table.len() == 4);
}
