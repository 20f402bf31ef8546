//! Runs that are made again: for the object that leaves one, and for the frames that an object has noted.

ghost use Rattle.std.specs.Prelude.{◌≡◌, ◌≤◌, IfOk, OnOk, length, option_map, true};
ghost use Rattle.vx_java.specs.Ids.{HasClassNumbers};
ghost use Rattle.vx_java.specs.Step.{result, start, steps};
ghost use Rattle.vx_link.specs.CoreFiles.{core_count};
ghost use Rattle.vx_noted.specs.Leaving.{left_in};
ghost use Rattle.vx_noted.specs.Noted.{first_noted, noted_in};
ghost use Rattle.vx_noted.specs.Runs.{IsAfter, LeavesAfter, is_over, left_of};
ghost use Rattle.vx_plain.specs.Views.{state_of};
ghost use Rattle.vx_plain_tables.specs.Tables.{AreTables, IsShort};

use crate::beginning::{Begun, begin};
use crate::frames::Standing;
use crate::leaving::{Left, leave};
use crate::noting::{Noting, note};
use std::alloc::{AllocError, Global};
use vx_link::Program;
use vx_list::GivenUp;
use vx_plain::State;
use vx_plain_tables::Tables;
use vx_plain_throw::Next;
use vx_replay::attempt;

/// Makes so many attempts. Of a run that ends within them nothing is said.
fn advance(
    alloc: Global,
    program: &Program,
    tables: &Tables,
    state: &mut State,
    count: u64,
) -> Result<(), GivenUp>
    requires classes { HasClassNumbers program.now }
    requires tables { AreTables program.now tables.now }
    ensures { OnOk result (IsAfter program.now (state_of state.old) count (state_of state.new)) }
{
    for made in 0..count {
        let attempted = attempt(alloc, program, tables, state)?;
        if let Next::Ends(_) = attempted.next {
            return Ok(());
        }
    }
    Ok(())
}

/// What leaves a run of so many attempts by the last of them.
fn leaves_after(
    alloc: Global,
    program: &Program,
    begun: Begun,
    before: u64,
) -> Result<Option<Left>, AllocError>
    requires classes { HasClassNumbers program.now }
    requires tables { AreTables program.now begun.tables }
    ensures { IfOk result (LeavesAfter program.now (state_of begun.state) before) }
{
    let Begun { mut state, tables } = begun;
    advance(alloc, program, &tables, &mut state, before)?;
    let left = leave(alloc, program, &tables, &mut state)?;
    match left {
        Some(object) => Ok(Some(Left { state, object })),
        None => Ok(None),
    }
}

/// What leaves the run of a program at a configuration, which is over within the limit after so many attempts; `None` where nothing
/// does. The only refusal is want of memory.
pub fn what_leaves(
    alloc: Global,
    program: &Program,
    config: &[bool],
    limit: u64,
    attempts: u64,
) -> Result<Option<Left>, AllocError>
    requires classes { HasClassNumbers program.now }
    requires core { core_count ≤ length program.now.classes }
    requires short { IsShort program.now }
    requires over { is_over (steps program.now limit (start program.now config.now)) ≡ true }
    requires attempts { attempts ≡ (result (steps program.now limit (start program.now config.now))).attempts }
    ensures { IfOk result (λ left. option_map left_of left ≡ left_in program.now (steps program.now limit (start program.now config.now))) }
{
    if attempts == 0 {
        return Ok(None);
    }
    let begun = begin(alloc, program, config)?;
    match begun {
        Some(begun) => leaves_after(alloc, program, begun, attempts - 1),
        None => Ok(None),
    }
}

/// The frames that the first of so many attempts notes in an object that notes any.
fn first_noted(
    alloc: Global,
    program: &Program,
    begun: Begun,
    limit: u64,
    object: u64,
) -> Result<Vec<Standing>, AllocError>
    requires classes { HasClassNumbers program.now }
    requires tables { AreTables program.now begun.tables }
    ensures { IfOk result (λ frames. frames.items ≡ first_noted program.now limit (state_of begun.state) object) }
{
    let Begun { mut state, tables } = begun;
    for made in 0..limit {
        let noting = note(alloc, program, &tables, &mut state, object)?;
        match noting {
            Noting::Frames(frames) => return Ok(frames),
            Noting::Ends => return Ok(Vec::new(alloc)),
            Noting::Goes => {}
        }
    }
    Ok(Vec::new(alloc))
}

/// The frames that an object has noted in the run of a program at a configuration, within so many attempts, the one on top first; none
/// where it has noted none. The only refusal is want of memory.
pub fn noted(
    alloc: Global,
    program: &Program,
    config: &[bool],
    limit: u64,
    object: u64,
) -> Result<Vec<Standing>, AllocError>
    requires classes { HasClassNumbers program.now }
    requires core { core_count ≤ length program.now.classes }
    requires short { IsShort program.now }
    ensures { IfOk result (λ frames. frames.items ≡ noted_in program.now limit (start program.now config.now) object) }
{
    let begun = begin(alloc, program, config)?;
    match begun {
        Some(begun) => first_noted(alloc, program, begun, limit, object),
        None => Ok(Vec::new(alloc)),
    }
}
