//! Files in memory that fail at given calls.

use crate::fault::FileFault;
use crate::files::Files;
use crate::kept::{find_file, first_bytes, listing};
use crate::log::FaultLog;
use std::alloc::{AllocError, Global};

/// Holds files, and fails at the listed calls, counted from 1, and where an absent path is read.
#[derive(Drop)]
pub struct MemoryFiles {
    alloc: Global,
    kept: Vec<(String, Vec<u8>)>,
    fails: Vec<u64>,
    calls: u64,
    log: FaultLog,
}

impl MemoryFiles {
    ghost use Rattle.std.specs.Prelude.{◌≡◌, ◌↔◌, IfOk, IsTrue, Contains};
    ghost use Rattle.vx_io.specs.Held.{are_distinct};
    ghost use Rattle.vx_io.specs.Kept.{held_of};
    ghost use Rattle.vx_io.specs.Call.{Call};
    ghost use Rattle.vx_io.specs.MemoryFiles.{files_of, faults_of, fails_of, calls_of};
    ghost use Rattle.vx_io.specs.Count.{next_call};

    /// Files that hold these bytes under these paths, which are distinct, and that fail at these calls.
    pub fn new(
        alloc: Global,
        held: Vec<(String, Vec<u8>)>,
        fails: Vec<u64>,
    ) -> Result<MemoryFiles, AllocError>
        requires { IsTrue (are_distinct (held_of held.items)) }
        ensures held { IfOk result (λ files. files_of files ≡ held_of held.items) }
        ensures fails { IfOk result (λ files. fails_of files ≡ fails.items) }
        ensures calls { IfOk result (λ files. calls_of files ≡ 0) }
        ensures faults { IfOk result (λ files. (call : Call) → faults_of files call ≡ 0) }
    {
        Ok(MemoryFiles {
            alloc,
            kept: held,
            fails,
            calls: 0,
            log: FaultLog::new(alloc),
        })
    }

    /// Counts a call, and says whether it fails.
    fn is_failing_call(&mut self) -> bool
        ensures fails { IsTrue result ↔ Contains (fails_of self.old) (next_call (calls_of self.old)) }
        ensures calls { self.new ≡ record self.old { calls = next_call self.old.calls } }
    {
        self.calls = self.calls.saturating_add(1);
        self.fails.contains(&self.calls)
    }
}

impl Files for MemoryFiles {
    ghost use Rattle.std.specs.Prelude.{◌≡◌, ◌≤◌, ◌<◌, ◌↔◌, ◌⊎◌, take, map, string_bytes, vec_len, Some, None, IfOk, OnOk, IfSome, IsErr, IsErrOf, Contains, IsNone};
    ghost use Rattle.vx_io.specs.Call.{Listing, Reading};
    ghost use Rattle.vx_io.specs.Cause.{HasCause};
    ghost use Rattle.vx_io.specs.Count.{next_call};
    ghost use Rattle.vx_io.specs.Held.{contents, file_at, IsListing, IsAscending};
    ghost use Rattle.vx_io.specs.MemoryFiles.{files_of, faults_of, fails_of, calls_of};

    ghost seen = { λ files. record { held = Some (files_of files); faults = faults_of files } };

    fn list(&mut self, folder: &str) -> Result<Vec<String>, FileFault>
        ensures listed { IfOk result (λ paths. IsListing (files_of self.old) folder.now (map string_bytes paths.items)) }
        ensures ascending { IfOk result (λ paths. IsAscending (map string_bytes paths.items)) }
        ensures cause { HasCause (Listing folder.now) (faults_of self.old) (faults_of self.new) result }
        ensures holds { Some (files_of self.new) ≡ Some (files_of self.old) }

        // Beyond the trait: which calls fail.
        ensures failed { IsErrOf result FileFault.Failed → Contains (fails_of self.old) (next_call (calls_of self.old)) }
        ensures fails { Contains (fails_of self.old) (next_call (calls_of self.old)) → IsErr result }
        ensures calls { calls_of self.new ≡ next_call (calls_of self.old) }
        ensures same_fails { fails_of self.new ≡ fails_of self.old }
    {
        if self.is_failing_call() {
            return self.log.fail_listing(self.alloc, folder);
        }
        Ok(listing(self.alloc, self.kept.as_slice(), folder)?)
    }

    fn read(&mut self, path: &str, room: u64) -> Result<Vec<u8>, FileFault>
        ensures bytes { IfOk result (λ bytes. bytes.items ≡ take room (contents (files_of self.old) path.now)) }
        ensures room { IfOk result (λ bytes. vec_len bytes ≤ room) }
        ensures cause { HasCause (Reading path.now) (faults_of self.old) (faults_of self.new) result }
        ensures holds { Some (files_of self.new) ≡ Some (files_of self.old) }

        // Beyond the trait: which calls fail.
        ensures failed { IsErrOf result FileFault.Failed →
            Contains (fails_of self.old) (next_call (calls_of self.old)) ⊎ IsNone (file_at (files_of self.old) path.now) }
        ensures fails { Contains (fails_of self.old) (next_call (calls_of self.old)) → IsErr result }
        ensures absent { IsNone (file_at (files_of self.old) path.now) → IsErr result }
        ensures calls { calls_of self.new ≡ next_call (calls_of self.old) }
        ensures same_fails { fails_of self.new ≡ fails_of self.old }
    {
        if self.is_failing_call() {
            return self.log.fail_reading(self.alloc, path);
        }
        match find_file(self.kept.as_slice(), path) {
            Some(bytes) => Ok(first_bytes(self.alloc, bytes, room)?),
            None => self.log.fail_reading(self.alloc, path),
        }
    }
}
