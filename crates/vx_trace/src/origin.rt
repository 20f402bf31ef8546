//! What a trace is made of.

ghost use Rattle.std.specs.Prelude.{◌≤◌, length};
ghost use Rattle.vx_java.specs.Ids.{HasClassNumbers};
ghost use Rattle.vx_link.specs.CoreFiles.{core_count};
ghost use Rattle.vx_plain_tables.specs.Tables.{IsShort};

use std::alloc::Global;
use vx_lines::LineTable;
use vx_link::Program;
use vx_value::Name;

/// A program with the line tables and the source files of the folder's classes, in the order of the program, and the run of a
/// configuration within so many attempts.
#[derive(Drop)]
pub struct Origin<'a> {
    pub alloc: Global,
    pub program: &'a Program,
    pub tables: &'a [LineTable],
    pub files: &'a [Option<Name>],
    pub config: &'a [bool],
    pub limit: u64,
    pub ghost classes: { HasClassNumbers program.now },
    pub ghost core: { core_count ≤ length program.now.classes },
    pub ghost short: { IsShort program.now },
}
