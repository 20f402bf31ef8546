//! The object that leaves a run (JVMS 2.10, 5.5).

ghost use Rattle.std.specs.Prelude.{◌≡◌, IfOk};
ghost use Rattle.vx_java.specs.Ids.{HasClassNumbers};
ghost use Rattle.vx_noted.specs.Leaving.{leaves, left_at, left_by};
ghost use Rattle.vx_noted.specs.Runs.{HasLeft};
ghost use Rattle.vx_plain.specs.Views.{state_of};
ghost use Rattle.vx_plain_here.specs.Rows.{outcome_over};
ghost use Rattle.vx_plain_tables.specs.Tables.{AreTables};

use std::alloc::Global;
use vx_link::Program;
use vx_list::GivenUp;
use vx_plain::State;
use vx_plain_here::Outcome;
use vx_plain_rows::row;
use vx_plain_tables::Tables;
use vx_plain_throw::{exception, handler_on_top, pass};
use vx_replay::carried_out;

/// What has left a run: the object that no frame handles, and the state behind the last frame that it passed.
#[derive(Drop)]
pub struct Left {
    pub state: State,
    pub object: u64,
}

/// An object passes all frames; `None` where one handles it.
fn pass_all(
    alloc: Global,
    program: &Program,
    state: &mut State,
    object: u64,
) -> Result<Option<u64>, GivenUp>
    requires { HasClassNumbers program.now }
    ensures { let s = state_of state.old in IfOk result (HasLeft (leaves program.now s object s.callers) (state_of state.new)) }
{
    let mut thrown = object;
    'passing: while let None = handler_on_top(program, state, thrown) {
        thrown = pass(alloc, program, state, thrown)?;
        let Some(_passed) = state.leave() else {
            return Ok(Some(thrown));
        };
    }
    Ok(None)
}

/// What an outcome that was carried out makes leave the run.
fn leave_by(
    alloc: Global,
    program: &Program,
    state: &mut State,
    outcome: Outcome,
) -> Result<Option<u64>, GivenUp>
    requires { HasClassNumbers program.now }
    ensures { IfOk result (HasLeft (left_by program.now (outcome_over (state_of state.old) outcome)) (state_of state.new)) }
{
    match outcome {
        Outcome::Throw(object) => pass_all(alloc, program, state, object),
        Outcome::Raise { class, message } => {
            let object = exception(alloc, program, state, class, message)?;
            pass_all(alloc, program, state, object)
        }
        Outcome::Go => Ok(None),
        Outcome::Begin(_) => Ok(None),
        Outcome::Native(_) => Ok(None),
        Outcome::Write(_, _) => Ok(None),
        Outcome::Ended(_) => Ok(None),
    }
}

/// What leaves the run by the attempt that a state makes; `None` where nothing does. The only refusal is want of memory.
pub(crate) fn leave(
    alloc: Global,
    program: &Program,
    tables: &Tables,
    state: &mut State,
) -> Result<Option<u64>, GivenUp>
    requires classes { HasClassNumbers program.now }
    requires tables { AreTables program.now tables.now }
    ensures { IfOk result (HasLeft (left_at program.now (state_of state.old)) (state_of state.new)) }
{
    let outcome = row(alloc, program, tables, state)?;
    let carried = carried_out(alloc, program, tables, state, outcome)?;
    leave_by(alloc, program, state, carried)
}
