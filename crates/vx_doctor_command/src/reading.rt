//! Reading class files so that what refuses one is at hand.

ghost use Rattle.std.specs.Prelude.{◌≡◌, ◌≤◌, All, IfErr, IfOk, List, [], length, map, string_bytes, ℕ};
ghost use Rattle.vx_class.specs.File.{Holds};
ghost use Rattle.vx_doctor_command.specs.Doctor.{read_class_told, read_classes_told};
ghost use Rattle.vx_doctor_command.specs.Stops.{EndsAs, IsTaken, stop_plan};
ghost use Rattle.vx_inputs.specs.declared.taken.Traced as traced;
ghost use Rattle.vx_plans.specs.KeepsFiles.{KeepsFiles};
ghost use Rattle.vx_plans.specs.Plan.{Leads, Plan};

use std::alloc::{AllocError, AllocFailed, Global};
use vx_class::ClassFault;
use vx_inputs::{MOST_BYTES, Traced, class_with_source, place_below, read_file};
use vx_io::Files;
use vx_plans::Status;
use vx_value::Name;

/// Why class files were not all read.
#[derive(Drop)]
pub(crate) enum Stop {
    /// One could not be read, or was too large, or memory was wanting.
    Unread {
        refusal: Status,
    },
    /// The bytes of one are no class file: the place and the reason of the first check that fails.
    NoClass {
        path: Name,
        bytes: Vec<u8>,
        at: u64,
        reason: u8,
    },
}

impl From<AllocError> for Stop {
    ghost use Rattle.std.specs.Prelude.{◌≡◌};
    ghost use Rattle.vx_doctor_command.specs.declared.reading.Stop.TheVariants.{Unread};
    ghost use Rattle.vx_plans.specs.declared.status.Status.TheVariants.{NoMemory};

    ghost from_gives = { λ _ e. e ≡ Unread NoMemory };

    fn from(_e: AllocError) -> Stop {
        Stop::Unread {
            refusal: Status::NoMemory,
        }
    }
}

impl<T: Drop> From<AllocFailed<T>> for Stop {
    ghost use Rattle.std.specs.Prelude.{◌≡◌};
    ghost use Rattle.vx_doctor_command.specs.declared.reading.Stop.TheVariants.{Unread};
    ghost use Rattle.vx_plans.specs.declared.status.Status.TheVariants.{NoMemory};

    ghost from_gives = { λ _ e. e ≡ Unread NoMemory };

    fn from(_e: AllocFailed<T>) -> Stop {
        Stop::Unread {
            refusal: Status::NoMemory,
        }
    }
}

/// What the bytes of a class file hold, or the refusal, with the bytes.
fn taken_from(alloc: Global, path: &str, bytes: Vec<u8>) -> Result<Traced, Stop>
    ensures taken { IsTaken path.now bytes.items result }
    ensures holds { IfOk result (λ taken. Holds taken.class) }
{
    match class_with_source(alloc, bytes.as_slice()) {
        Ok(traced) => Ok(traced),
        Err(ClassFault::NoMemory) => Err(Stop::Unread {
            refusal: Status::NoMemory,
        }),
        Err(ClassFault::Bad { at, reason }) => Err(Stop::NoClass {
            path: Name::of(alloc, path.as_bytes())?,
            bytes,
            at,
            reason,
        }),
    }
}

/// Reads a class file.
fn read_class_file<F: Files>(
    alloc: Global,
    files: &mut F,
    folder: &str,
    path: &str,
) -> Result<Traced, Stop>
    ensures ok { IfOk result (λ taken. (front : List ℕ) (next : traced.Traced → Plan) →
        Leads (F.seen files.old).held (read_class_told front folder.now path.now next) (next taken)) }
    ensures holds { IfOk result (λ taken. Holds taken.class) }
    ensures err { IfErr result (λ stop. (front : List ℕ) (next : traced.Traced → Plan) →
        EndsAs (F.seen files.old) (F.seen files.new) (read_class_told front folder.now path.now next) (stop_plan front stop)) }
    ensures keeps { KeepsFiles (F.seen files.old) (F.seen files.new) }
{
    let place = place_below(alloc, folder, path)?;
    match read_file(alloc, files, MOST_BYTES, place.as_str(), path) {
        Ok(bytes) => taken_from(alloc, path, bytes),
        Err(refusal) => Err(Stop::Unread { refusal }),
    }
}

/// Reads the class files at these paths below a folder.
pub(crate) fn read_class_files<F: Files>(
    alloc: Global,
    files: &mut F,
    folder: &str,
    paths: &[String],
) -> Result<Vec<Traced>, Stop>
    ensures ok { IfOk result (λ all. (front : List ℕ) (next : List traced.Traced → Plan) →
        Leads (F.seen files.old).held (read_classes_told front folder.now next [] (map string_bytes paths.now)) (next all.items)) }
    ensures holds { IfOk result (λ all. All (λ taken. Holds taken.class) all.items) }
    ensures count { IfOk result (λ all. length all.items ≡ length paths.now) }
    ensures err { IfErr result (λ stop. (front : List ℕ) (next : List traced.Traced → Plan) →
        EndsAs (F.seen files.old) (F.seen files.new) (read_classes_told front folder.now next [] (map string_bytes paths.now)) (stop_plan front stop)) }
    ensures keeps { KeepsFiles (F.seen files.old) (F.seen files.new) }
{
    let mut all = Vec::new(alloc);
    for path in paths {
        let taken = read_class_file(alloc, files, folder, path.as_str())?;
        all.push(taken)?;
    }
    Ok(all)
}
