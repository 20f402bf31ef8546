//! The calls on files that failed, one entry each: the counts of faults are computed from it.

use crate::fault::FileFault;
use std::alloc::Global;

/// A log of failed calls, from which the counts of faults are computed.
#[derive(Drop)]
pub struct FaultLog {
    pub listings: Vec<String>,
    pub readings: Vec<String>,
}

impl FaultLog {
    ghost use Rattle.std.specs.Prelude.{◌≡◌, IsErr};
    ghost use Rattle.vx_io.specs.Call.{Call, Listing, Reading};
    ghost use Rattle.vx_io.specs.FaultLog.{faults_in};
    ghost use Rattle.vx_io.specs.Cause.{HasCause};

    pub fn new(alloc: Global) -> FaultLog
        ensures { (call : Call) → faults_in result call ≡ 0 }
    {
        FaultLog {
            listings: Vec::new(alloc),
            readings: Vec::new(alloc),
        }
    }

    /// Notes a listing that failed, and answers so.
    pub fn fail_listing<T>(&mut self, alloc: Global, folder: &str) -> Result<T, FileFault>
        ensures cause { HasCause (Listing folder.now) (faults_in self.old) (faults_in self.new) result }
        ensures err { IsErr result }
    {
        let folder = String::from_str(alloc, folder)?;
        self.listings.push(folder)?;
        Err(FileFault::Failed)
    }

    /// Notes a read that failed, and answers so.
    pub fn fail_reading<T>(&mut self, alloc: Global, path: &str) -> Result<T, FileFault>
        ensures cause { HasCause (Reading path.now) (faults_in self.old) (faults_in self.new) result }
        ensures err { IsErr result }
    {
        let path = String::from_str(alloc, path)?;
        self.readings.push(path)?;
        Err(FileFault::Failed)
    }
}
