//! The first state of a run, with the tables of its program.

ghost use Rattle.std.specs.Prelude.{◌≡◌, ◌≤◌, IfOk, length, map};
ghost use Rattle.vx_java.specs.FirstObjects.{literal_object};
ghost use Rattle.vx_java.specs.Ids.{HasClassNumbers};
ghost use Rattle.vx_java.specs.Step.{start};
ghost use Rattle.vx_link.specs.CoreFiles.{core_count};
ghost use Rattle.vx_noted.specs.Runs.{IsBegun};
ghost use Rattle.vx_plain.specs.Views.{state_of};
ghost use Rattle.vx_plain_start.specs.Beginning.{started};
ghost use Rattle.vx_plain_tables.specs.Tables.{IsShort};

use std::alloc::{AllocError, Global};
use vx_initial_heap::First;
use vx_link::Program;
use vx_list::Items;
use vx_plain::State;
use vx_plain_start::{before_main, begin_main};
use vx_plain_tables::Tables;

/// The first state of a run, and the tables of its program.
#[derive(Drop)]
pub struct Begun {
    pub state: State,
    pub tables: Tables,
}

/// Begins with the state before main, and fills the tables.
fn begin_from(
    alloc: Global,
    program: &Program,
    literals: Vec<Items<u64>>,
    before: State,
) -> Result<Option<Begun>, AllocError>
    requires classes { HasClassNumbers program.now }
    requires short { IsShort program.now }
    requires literals { literals.items ≡ map (λ c. map (literal_object program.now c.pool) c.pool.entries) program.now.classes }
    ensures { IfOk result (IsBegun program.now (started program.now (state_of before))) }
{
    let mut state = before;
    let ended = begin_main(alloc, program, &mut state)?;
    if let Some(_end) = ended {
        return Ok(None);
    }
    let tables = Tables::of(alloc, program, literals)?;
    Ok(Some(Begun { state, tables }))
}

/// The first state of the run of a program at a configuration; `None` where it ends at its start. The only refusal is want of memory.
pub(crate) fn begin(
    alloc: Global,
    program: &Program,
    config: &[bool],
) -> Result<Option<Begun>, AllocError>
    requires classes { HasClassNumbers program.now }
    requires core { core_count ≤ length program.now.classes }
    requires short { IsShort program.now }
    ensures { IfOk result (IsBegun program.now (start program.now config.now)) }
{
    let first = First::of(alloc, program)?;
    let before = before_main(alloc, program, &first, config)?;
    begin_from(alloc, program, first.literals, before)
}
