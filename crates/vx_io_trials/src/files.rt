//! Three files, of which two stand in a folder.

use std::alloc::{AllocError, Global};
use vx_io::{Files, MemoryFiles, SteadyFiles, are_distinct};

/// The text of a model.
const MODEL: &[u8] = b"option A Main A\n";

/// The model, and a folder whose second file stands before its first one.
const FILES: [(&str, &[u8]); 3] = [("f/2.class", b"two"), ("m", MODEL), ("f/1.class", b"one")];

fn held(alloc: Global) -> Result<Vec<(String, Vec<u8>)>, AllocError> {
    let mut held = Vec::new(alloc);
    for (path, bytes) in FILES {
        held.push((
            String::from_str(alloc, path)?,
            Vec::from_slice(alloc, bytes)?,
        ))?;
    }
    Ok(held)
}

/// Whether the two files of the folder are listed by their paths.
fn is_listed<F: Files>(files: &mut F) -> bool {
    match files.list("f") {
        Ok(paths) => {
            paths.len() == 2 && paths[0].as_str() == "1.class" && paths[1].as_str() == "2.class"
        }
        Err(_) => false,
    }
}

/// Whether a path is read, of at most 100 bytes, and gives these.
fn gives<F: Files>(files: &mut F, path: &str, bytes: &[u8]) -> bool {
    match files.read(path, 100) {
        Ok(read) => read.as_slice() == bytes,
        Err(_) => false,
    }
}

#[test]
fn steady_files_hold_what_they_are_given(rt: HostRuntime) {
    let held = held(rt.alloc()).expect(&rt, "memory");
    assert!(rt; are_distinct(held.as_slice()));
    let mut files = SteadyFiles::new(rt.alloc(), held).expect(&rt, "memory");
    assert!(rt; is_listed(&mut files) && gives(&mut files, "m", MODEL));
    assert!(rt; gives(&mut files, "absent", b""));
}

#[test]
fn memory_files_fail_at_the_second_call_and_where_nothing_is_held(rt: HostRuntime) {
    let held = held(rt.alloc()).expect(&rt, "memory");
    assert!(rt; are_distinct(held.as_slice()));
    let fails = Vec::from_slice(rt.alloc(), &[2]).expect(&rt, "memory");
    let mut files = MemoryFiles::new(rt.alloc(), held, fails).expect(&rt, "memory");
    assert!(rt; is_listed(&mut files) && !is_listed(&mut files));
    assert!(rt; gives(&mut files, "m", MODEL) && !gives(&mut files, "absent", b""));
}
