//! A run and its text.

ghost use Rattle.std.specs.Prelude.{◌≡◌, ◌≤◌, IfOk, length};
ghost use Rattle.vx_java.specs.Ids.{HasClassNumbers};
ghost use Rattle.vx_java.specs.Step.{start, steps};
ghost use Rattle.vx_link.specs.CoreFiles.{core_count};
ghost use Rattle.vx_plain_tables.specs.Tables.{IsShort};
ghost use Rattle.vx_replay.specs.ReplayText.{replay_text};

use crate::running::run_alone;
use crate::text::replay_text;
use std::alloc::{AllocError, Global};
use vx_lines::LineTable;
use vx_link::Program;

/// The text of the run of a program at a configuration, within so many attempts. The line tables are those of the folder's classes, in
/// the order of the program. The only refusal is want of memory.
pub fn run_text(
    alloc: Global,
    program: &Program,
    tables: &[LineTable],
    config: &[bool],
    limit: u64,
) -> Result<Vec<u8>, AllocError>
    requires classes { HasClassNumbers program.now }
    requires core { core_count ≤ length program.now.classes }
    requires short { IsShort program.now }
    ensures { IfOk result (λ text. text.items ≡ replay_text program.now tables.now (steps program.now limit (start program.now config.now))) }
{
    let run = run_alone(alloc, program, config, limit)?;
    replay_text(alloc, program, tables, &run)
}
