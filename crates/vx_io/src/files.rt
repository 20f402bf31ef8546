//! Files that are listed and read: the trait, which the program reaches the outside by.

ghost use Rattle.std.specs.Prelude.{◌≡◌, ◌≤◌, take, map, string_bytes, vec_len, IfOk, IfSome};
ghost use Rattle.vx_io.specs.Call.{Listing, Reading};
ghost use Rattle.vx_io.specs.Held.{FilesState, contents, IsListing, IsAscending};
ghost use Rattle.vx_io.specs.Cause.{HasCause};

use crate::fault::FileFault;

/// Folders that are listed and files that are read. `Failed` is answered only where the count of that call on that
/// folder or path rose; no other count changes.
pub trait Files {
    /// What is held, where that is told, and how often each call has failed.
    ghost seen: { Self → FilesState };

    /// The paths of all regular files below a folder, relative to it, with `/` between parts and ascending by bytes.
    /// A folder that is absent, or a name that isn't UTF-8, is a fault.
    fn list(&mut self, folder: &str) -> Result<Vec<String>, FileFault>
        ensures listed { IfOk result (λ paths. IfSome (seen self.old).held (λ files. IsListing files folder.now (map string_bytes paths.items))) }
        ensures ascending { IfOk result (λ paths. IsAscending (map string_bytes paths.items)) }
        ensures cause { HasCause (Listing folder.now) (seen self.old).faults (seen self.new).faults result }
        ensures holds { (seen self.new).held ≡ (seen self.old).held };

    /// The first `room` bytes of a file, or all where there are fewer. An absent path is a fault, or counts as an
    /// empty file, as the implementation says.
    fn read(&mut self, path: &str, room: u64) -> Result<Vec<u8>, FileFault>
        ensures bytes { IfOk result (λ bytes. IfSome (seen self.old).held (λ files. bytes.items ≡ take room (contents files path.now))) }
        ensures room { IfOk result (λ bytes. vec_len bytes ≤ room) }
        ensures cause { HasCause (Reading path.now) (seen self.old).faults (seen self.new).faults result }
        ensures holds { (seen self.new).held ≡ (seen self.old).held };
}
