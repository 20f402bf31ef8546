//! Files over real folders: the trusted edge. Nothing is told of what a folder holds.

ghost use Rattle.std.specs.Prelude.{None};

use crate::fault::FileFault;
use crate::files::Files;
use crate::log::FaultLog;
use crate::walk::{read_first, walk};

/// Lists and reads real files, and keeps its faulted calls. It doesn't tell what is held.
#[derive(Drop)]
pub struct HostFiles<R> {
    rt: R,
    log: FaultLog,
}

impl<R: std::rt::Files + AllocGlobal + Clone + Drop> HostFiles<R> {
    ghost use Rattle.std.specs.Prelude.{◌≡◌};
    ghost use Rattle.vx_io.specs.Call.{Call};
    ghost use Rattle.vx_io.specs.FaultLog.{faults_in};

    /// The real files that this runtime reaches; no call has failed yet.
    pub fn new(rt: R) -> HostFiles<R>
        ensures { (call : Call) → faults_in result.log call ≡ 0 }
    {
        let log = FaultLog::new(rt.alloc());
        HostFiles { rt, log }
    }
}

impl<R: std::rt::Files + AllocGlobal + Clone + Drop> Files for HostFiles<R> {
    ghost use Rattle.std.specs.Prelude.{None};
    ghost use Rattle.vx_io.specs.FaultLog.{faults_in};

    ghost seen = { λ files. record { held = None; faults = faults_in files.log } };

    fn list(&mut self, folder: &str) -> Result<Vec<String>, FileFault> {
        match walk(&self.rt, folder) {
            Err(FileFault::Failed) => self.log.fail_listing(self.rt.alloc(), folder),
            listed => listed,
        }
    }

    fn read(&mut self, path: &str, room: u64) -> Result<Vec<u8>, FileFault> {
        match read_first(&self.rt, path, room) {
            Err(FileFault::Failed) => self.log.fail_reading(self.rt.alloc(), path),
            read => read,
        }
    }
}
