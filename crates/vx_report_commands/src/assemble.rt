//! The command `asm`: reads a source, and gives the class file that it names.

ghost use Rattle.std.specs.Prelude.{◌≡◌, ◌⊎◌, Ok, Err, IfOk, IfErr, MatchResult};
ghost use Rattle.vx_report_commands.specs.Assemble.{assembled, asm_plan};
ghost use Rattle.vx_plans.specs.KeepsFiles.{KeepsFiles};
ghost use Rattle.vx_plans.specs.Plan.{MayGive, MayStop, done_with};

use std::alloc::Global;
use vx_asm::{AsmFault, assemble};
use vx_inputs::{MOST_BYTES, read_file};
use vx_io::Files;
use vx_plans::Status;

/// The class file that a source names, or the refusal of the least line at which a rule fails.
fn assembled(alloc: Global, source: &[u8]) -> Result<Vec<u8>, Status>
    ensures { MatchResult result (λ text. assembled source.now ≡ Ok text.items)
        (λ status. (status ≡ Status.NoMemory) ⊎ (assembled source.now ≡ Err status)) }
{
    match assemble(alloc, source) {
        Ok(bytes) => Ok(bytes),
        Err(AsmFault::NoMemory) => Err(Status::NoMemory),
        Err(AsmFault::Line { line, reason }) => Err(Status::BadSource { line, reason }),
    }
}

/// The class file of a source.
pub fn class_file<F: Files>(alloc: Global, files: &mut F, source: &str) -> Result<Vec<u8>, Status>
    ensures ok { IfOk result (λ text. MayGive (F.seen files.old).held (F.seen files.old).faults (F.seen files.new).faults
        (asm_plan source.now) (done_with text.items)) }
    ensures err { IfErr result (λ status. MayStop (F.seen files.old) (F.seen files.new) (asm_plan source.now) status) }
    ensures keeps { KeepsFiles (F.seen files.old) (F.seen files.new) }
{
    let bytes = read_file(alloc, files, MOST_BYTES, source, source)?;
    assembled(alloc, bytes.as_slice())
}
