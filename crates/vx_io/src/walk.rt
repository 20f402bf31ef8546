//! The files below a real folder, and the first bytes of one.

ghost use Rattle.std.specs.Prelude.{◌+◌, ◌≤◌, map, string_bytes, vec_len, IfOk};
ghost use Rattle.vx_io.specs.Held.{IsAscending};

use crate::fault::FileFault;
use std::alloc::{AllocError, Global};
use std::fs::{DirEntry, FileType};
use std::io::{ErrorKind, Read};
use std::rt::Files;
use std::{fs, io, vec};

/// How many entries a listing meets at most.
const MAX_ENTRIES: u32 = 1_048_576;

/// What is answered for an error of the system.
fn fault_of(error: io::Error) -> FileFault {
    match error.kind() {
        ErrorKind::OutOfMemory => FileFault::NoMemory,
        _ => FileFault::Failed,
    }
}

/// Whether an entry of this kind is a regular file, or a symbolic link that leads to one.
fn leads_to_file<R: Files>(rt: &R, kind: FileType, entry: &DirEntry<R>) -> Result<bool, FileFault> {
    if !kind.is_symlink() {
        return Ok(kind.is_file());
    }
    match fs::metadata(rt, entry.path()) {
        Ok(target) => Ok(target.is_file()),
        Err(error) => match error.kind() {
            ErrorKind::NotFound | ErrorKind::FilesystemLoop => Ok(false),
            _ => Err(fault_of(error)),
        },
    }
}

/// A name in a folder that is named relative to another.
fn joined(alloc: Global, inner: &str, name: &str) -> Result<String, AllocError> {
    let mut path = String::from_str(alloc, inner)?;
    if !inner.is_empty() {
        path.push('/')?;
    }
    path.push_str(name)?;
    Ok(path)
}

/// Adds the folders and the regular files of one folder, and gives how many entries are left to meet.
fn list_one<R: Files + AllocGlobal + Clone + Drop>(
    rt: &R,
    folder: &str,
    inner: &str,
    mut left: u32,
    pending: &mut Vec<String>,
    paths: &mut Vec<String>,
) -> Result<u32, FileFault>
    ensures { IfOk result (λ rest. rest + vec_len pending.new ≤ left + vec_len pending.old) }
{
    let alloc = rt.alloc();
    let mut place = String::from_str(alloc, folder)?;
    if !inner.is_empty() {
        place.push('/')?;
        place.push_str(inner)?;
    }
    for entry in fs::read_dir(rt, place.as_str()).map_err(fault_of)? {
        let entry = entry.map_err(fault_of)?;
        if left == 0 {
            return Err(FileFault::Failed);
        }
        left -= 1;
        let kind = entry.file_type().map_err(fault_of)?;
        let path = joined(alloc, inner, entry.file_name())?;
        if kind.is_dir() {
            pending.push(path)?;
        } else if leads_to_file(rt, kind, &entry)? {
            paths.push(path)?;
        }
    }
    Ok(left)
}

/// The paths of the regular files below a folder, relative to it and ascending. A link to a regular file is one; links
/// to folders are not followed. More than 1,048,576 entries, or a name that isn't UTF-8, is a fault.
pub fn walk<R: Files + AllocGlobal + Clone + Drop>(
    rt: &R,
    folder: &str,
) -> Result<Vec<String>, FileFault>
    ensures { IfOk result (λ paths. IsAscending (map string_bytes paths.items)) }
{
    let alloc = rt.alloc();
    let mut paths = Vec::new(alloc);
    let mut pending = vec![in alloc; String::new(alloc)]?;
    let mut left = MAX_ENTRIES;
    while let Some(inner) = pending.pop() {
        left = list_one(rt, folder, inner.as_str(), left, &mut pending, &mut paths)?;
    }
    paths.sort()?;
    Ok(paths)
}

/// The first `room` bytes of a file.
pub fn read_first<R: Files + AllocGlobal>(
    rt: &R,
    path: &str,
    room: u64,
) -> Result<Vec<u8>, FileFault>
    ensures { IfOk result (λ bytes. vec_len bytes ≤ room) }
{
    let mut bytes = Vec::new(rt.alloc());
    let file = fs::File::open(rt, path).map_err(fault_of)?;
    file.take(room).read_to_end(&mut bytes).map_err(fault_of)?;
    bytes.truncate(room as usize);
    Ok(bytes)
}
