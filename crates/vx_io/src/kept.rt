//! Files that are kept in memory as pairs of a path and bytes.

ghost use Rattle.std.specs.Prelude.{◌≡◌, ◌<◌, ◌++◌, take, map, string_bytes, IfOk, OnOk};
ghost use Rattle.std.specs.Option.{option_copied, option_to_list};
ghost use Rattle.vx_io.specs.Held.{below, file_at, are_distinct as distinct, IsListing};
ghost use Rattle.vx_io.specs.Kept.{held_of};

use std::alloc::{AllocError, Global};

/// What stands behind the folder and a slash in a path.
fn rest_below<'a>(folder: &str, path: &'a str) -> Option<&'a str>
    ensures { option_copied result ≡ below folder.now path.now }
{
    let rest = path.strip_prefix(folder)?.strip_prefix('/')?;
    if rest.is_empty() {
        return None;
    }
    Some(rest)
}

/// Adds what of a path stands behind the folder and a slash.
fn add_below(
    alloc: Global,
    paths: &mut Vec<String>,
    folder: &str,
    path: &str,
) -> Result<(), AllocError>
    ensures { OnOk result (map string_bytes paths.new.items ≡ map string_bytes paths.old.items ++ option_to_list (below folder.now path.now)) }
{
    if let Some(rest) = rest_below(folder, path) {
        let rest = String::from_str(alloc, rest)?;
        paths.push(rest)?;
    }
    Ok(())
}

/// The paths below a folder, relative to it and ascending.
pub fn listing(
    alloc: Global,
    kept: &[(String, Vec<u8>)],
    folder: &str,
) -> Result<Vec<String>, AllocError>
    ensures { IfOk result (λ paths. IsListing (held_of kept.now) folder.now (map string_bytes paths.items)) }
{
    let mut paths = Vec::new(alloc);
    for file in kept {
        add_below(alloc, &mut paths, folder, file.0.as_str())?;
    }
    paths.sort()?;
    Ok(paths)
}

/// The bytes that are kept under a path.
pub fn find_file<'a>(kept: &'a [(String, Vec<u8>)], path: &str) -> Option<&'a [u8]>
    ensures { option_copied result ≡ file_at (held_of kept.now) path.now }
{
    for file in kept {
        if file.0.as_str() == path {
            return Some(file.1.as_slice());
        }
    }
    None
}

/// The first `room` of some bytes.
pub fn first_bytes(alloc: Global, bytes: &[u8], room: u64) -> Result<Vec<u8>, AllocError>
    ensures { IfOk result (λ first. first.items ≡ take room bytes.now) }
{
    let room = room as usize;
    let first = if room < bytes.len() {
        &bytes[..room]
    } else {
        bytes
    };
    Vec::from_slice(alloc, first)
}

/// Whether no path is kept twice.
pub fn are_distinct(kept: &[(String, Vec<u8>)]) -> bool
    ensures { result ≡ distinct (held_of kept.now) }
{
    let mut rest = kept;
    while let [file, others @ ..] = rest {
        if find_file(others, file.0.as_str()).is_some() {
            return false;
        }
        rest = others;
    }
    true
}
