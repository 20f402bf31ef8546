//! Reading files, for every command: one file within its room, and the class files of a folder. Each stage is proved against its
//! part of the plan.

ghost use Rattle.std.specs.Prelude.{◌≡◌, ◌<◌, ◌≤◌, ◌^◌, ℕ, All, List, length, map, string_bytes, IfOk, IfErr, MatchResult, Ok, [], ◌⊎◌};
ghost use Rattle.vx_class.specs.File.{Holds};
ghost use Rattle.vx_pool.specs.Place.{IsBytes};
ghost use Rattle.vx_plans.specs.Plan.{Plan, Leads, MayStop};
ghost use Rattle.vx_plans.specs.Sized.{read_sized};
ghost use Rattle.vx_inputs.specs.Files.{WasRead};
ghost use Rattle.vx_inputs.specs.Folder.{WasListed, or_bad_class, read_checked, read_classes, read_folder, list_classes, place_of, class_paths};
ghost use Rattle.vx_plans.specs.KeepsFiles.{KeepsFiles};

use crate::job::is_class_file;
use crate::taken::FromClassFile;
use std::alloc::{AllocError, Global};
use vx_class::ClassFault;
use vx_io::{FileFault, Files};
use vx_plans::Status;
use vx_value::Name;

/// The most bytes of a model, a class file or a source.
pub const MOST_BYTES: u64 = 1_048_576;

/// The most class files of a folder.
const MOST_CLASSES: usize = 1_024;

/// Bytes are numbers below 256.
fn bytes_fit(bytes: &[u8])
    ensures { IsBytes bytes.now }
{
    let _len = bytes.len();
}

/// Reads a file for which there is so much room, and which statuses show by the path `shown`.
pub fn read_file<F: Files>(
    alloc: Global,
    files: &mut F,
    room: u64,
    place: &str,
    shown: &str,
) -> Result<Vec<u8>, Status>
    requires { room < 2 ^ 63 }
    ensures ok { IfOk result (λ bytes. (next : List ℕ → Plan) →
        Leads (F.seen files.old).held (read_sized room place.now shown.now next) (next bytes.items)) }
    ensures read { IfOk result (λ bytes. WasRead (F.seen files.old).held room place.now bytes.items) }
    ensures err { IfErr result (λ status. (next : List ℕ → Plan) →
        MayStop (F.seen files.old) (F.seen files.new) (read_sized room place.now shown.now next) status) }
    ensures keeps { KeepsFiles (F.seen files.old) (F.seen files.new) }
{
    match files.read(place, room + 1) {
        Ok(bytes) => {
            bytes_fit(bytes.as_slice());
            if bytes.len() as u64 > room {
                let path = Name::of(alloc, shown.as_bytes())?;
                return Err(Status::TooLarge { path, room });
            }
            Ok(bytes)
        }
        Err(FileFault::NoMemory) => Err(Status::NoMemory),
        Err(FileFault::Failed) => {
            let path = Name::of(alloc, shown.as_bytes())?;
            Err(Status::ReadFault { path })
        }
    }
}

/// Keeps the paths of class files.
fn keep_class_files(paths: &mut Vec<String>)
    ensures { map string_bytes paths.new.items ≡ class_paths (map string_bytes paths.old.items) }
{
    paths.retain(|path| is_class_file(path.as_str()));
}

/// The class files below a folder, relative to it and ascending.
pub fn list_class_files<F: Files>(
    alloc: Global,
    files: &mut F,
    folder: &str,
) -> Result<Vec<String>, Status>
    ensures ok { IfOk result (λ paths. (next : List (List ℕ) → Plan) →
        Leads (F.seen files.old).held (list_classes folder.now next) (next (map string_bytes paths.items))) }
    ensures listed { IfOk result (λ paths. WasListed (F.seen files.old).held folder.now (map string_bytes paths.items)) }
    ensures few { IfOk result (λ paths. length paths.items ≤ 1024) }
    ensures err { IfErr result (λ status. (next : List (List ℕ) → Plan) →
        MayStop (F.seen files.old) (F.seen files.new) (list_classes folder.now next) status) }
    ensures keeps { KeepsFiles (F.seen files.old) (F.seen files.new) }
{
    match files.list(folder) {
        Ok(mut paths) => {
            keep_class_files(&mut paths);
            if paths.len() > MOST_CLASSES {
                let path = Name::of(alloc, folder.as_bytes())?;
                return Err(Status::TooLarge {
                    path,
                    room: MOST_CLASSES as u64,
                });
            }
            Ok(paths)
        }
        Err(FileFault::NoMemory) => Err(Status::NoMemory),
        Err(FileFault::Failed) => {
            let path = Name::of(alloc, folder.as_bytes())?;
            Err(Status::ReadFault { path })
        }
    }
}

/// The path of a file below a folder.
pub fn place_below(alloc: Global, folder: &str, path: &str) -> Result<String, AllocError>
    ensures { IfOk result (λ place. string_bytes place ≡ place_of folder.now path.now) }
{
    let mut place = String::from_str(alloc, folder)?;
    place.push('/')?;
    place.push_str(path)?;
    Ok(place)
}

/// What the bytes of a class file give, or the refusal by its path.
fn taken_from<T: FromClassFile>(alloc: Global, path: &str, bytes: &[u8]) -> Result<T, Status>
    ensures exact { MatchResult result (λ taken. or_bad_class path.now (T.given bytes.now) ≡ Ok taken)
        (λ status. (status ≡ Status.NoMemory) ⊎ (or_bad_class path.now (T.given bytes.now) ≡ Err status)) }
    ensures holds { IfOk result (λ taken. Holds (T.class taken)) }
{
    match T::from_class_file(alloc, bytes) {
        Ok(taken) => Ok(taken),
        Err(ClassFault::NoMemory) => Err(Status::NoMemory),
        Err(ClassFault::Bad { at, reason }) => {
            let path = Name::of(alloc, path.as_bytes())?;
            Err(Status::BadClass { path, at, reason })
        }
    }
}

/// Reads a class file.
fn read_class_file<F: Files, T: FromClassFile>(
    alloc: Global,
    files: &mut F,
    folder: &str,
    path: &str,
) -> Result<T, Status>
    ensures ok { IfOk result (λ taken. (next : T → Plan) →
        Leads (F.seen files.old).held (read_checked T.given folder.now path.now next) (next taken)) }
    ensures holds { IfOk result (λ taken. Holds (T.class taken)) }
    ensures err { IfErr result (λ status. (next : T → Plan) →
        MayStop (F.seen files.old) (F.seen files.new) (read_checked T.given folder.now path.now next) status) }
    ensures keeps { KeepsFiles (F.seen files.old) (F.seen files.new) }
{
    let place = place_below(alloc, folder, path)?;
    let bytes = read_file(alloc, files, MOST_BYTES, place.as_str(), path)?;
    taken_from(alloc, path, bytes.as_slice())
}

/// Reads the class files at these paths below a folder.
fn read_class_files<F: Files, T: FromClassFile>(
    alloc: Global,
    files: &mut F,
    folder: &str,
    paths: &[String],
) -> Result<Vec<T>, Status>
    ensures ok { IfOk result (λ all. (next : List T → Plan) →
        Leads (F.seen files.old).held (read_classes T.given folder.now next [] (map string_bytes paths.now)) (next all.items)) }
    ensures holds { IfOk result (λ all. All (λ taken. Holds (T.class taken)) all.items) }
    ensures count { IfOk result (λ all. length all.items ≡ length paths.now) }
    ensures err { IfErr result (λ status. (next : List T → Plan) →
        MayStop (F.seen files.old) (F.seen files.new) (read_classes T.given folder.now next [] (map string_bytes paths.now)) status) }
    ensures keeps { KeepsFiles (F.seen files.old) (F.seen files.new) }
{
    let mut all = Vec::new(alloc);
    for path in paths {
        let taken = read_class_file(alloc, files, folder, path.as_str())?;
        all.push(taken)?;
    }
    Ok(all)
}

/// Lists a folder and reads its class files, ascending by their paths.
pub fn read_folder<F: Files, T: FromClassFile>(
    alloc: Global,
    files: &mut F,
    folder: &str,
) -> Result<Vec<T>, Status>
    ensures ok { IfOk result (λ all. (next : List T → Plan) →
        Leads (F.seen files.old).held (read_folder T.given folder.now next) (next all.items)) }
    ensures few { IfOk result (λ all. length all.items ≤ 1024) }
    ensures holds { IfOk result (λ all. All (λ taken. Holds (T.class taken)) all.items) }
    ensures err { IfErr result (λ status. (next : List T → Plan) →
        MayStop (F.seen files.old) (F.seen files.new) (read_folder T.given folder.now next) status) }
    ensures keeps { KeepsFiles (F.seen files.old) (F.seen files.new) }
{
    let paths = list_class_files(alloc, files, folder)?;
    read_class_files(alloc, files, folder, paths.as_slice())
}
