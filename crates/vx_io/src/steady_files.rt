//! Files in memory that never fail.

use crate::fault::FileFault;
use crate::files::Files;
use crate::kept::{find_file, first_bytes, listing};
use std::alloc::{AllocError, Global};

/// Holds files. A path that nothing is held under is an empty file.
#[derive(Drop)]
pub struct SteadyFiles {
    alloc: Global,
    kept: Vec<(String, Vec<u8>)>,
}

impl SteadyFiles {
    ghost use Rattle.std.specs.Prelude.{◌≡◌, IfOk, IsTrue};
    ghost use Rattle.vx_io.specs.Held.{are_distinct};
    ghost use Rattle.vx_io.specs.Kept.{held_of};
    ghost use Rattle.vx_io.specs.SteadyFiles.{files_of};

    /// Files that hold these bytes under these paths, which are distinct.
    pub fn new(alloc: Global, held: Vec<(String, Vec<u8>)>) -> Result<SteadyFiles, AllocError>
        requires { IsTrue (are_distinct (held_of held.items)) }
        ensures { IfOk result (λ files. files_of files ≡ held_of held.items) }
    {
        Ok(SteadyFiles { alloc, kept: held })
    }
}

impl Files for SteadyFiles {
    ghost use Rattle.std.specs.Prelude.{Some};
    ghost use Rattle.vx_io.specs.SteadyFiles.{files_of};

    ghost seen = { λ files. record { held = Some (files_of files); faults = λ _. 0 } };

    fn list(&mut self, folder: &str) -> Result<Vec<String>, FileFault> {
        Ok(listing(self.alloc, self.kept.as_slice(), folder)?)
    }

    fn read(&mut self, path: &str, room: u64) -> Result<Vec<u8>, FileFault> {
        match find_file(self.kept.as_slice(), path) {
            Some(bytes) => Ok(first_bytes(self.alloc, bytes, room)?),
            None => Ok(Vec::new(self.alloc)),
        }
    }
}
