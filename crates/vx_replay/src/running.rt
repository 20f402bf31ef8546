//! The whole run.

ghost use Rattle.std.specs.Prelude.{◌≡◌, ◌≤◌, [], IfOk, length, map};
ghost use Rattle.vx_java.specs.FirstObjects.{literal_object};
ghost use Rattle.vx_java.specs.Ids.{HasClassNumbers};
ghost use Rattle.vx_java.specs.Step.{Live, fresh_progress, start, steps};
ghost use Rattle.vx_link.specs.CoreFiles.{core_count};
ghost use Rattle.vx_plain.specs.Views.{frame_of, state_of};
ghost use Rattle.vx_plain_here.specs.Rows.{places_of};
ghost use Rattle.vx_plain_start.specs.Beginning.{started};
ghost use Rattle.vx_plain_tables.specs.Tables.{AreTables, IsShort};
ghost use Rattle.vx_replay.specs.Replays.{HasRun, IsReplay, places_in};

use crate::attempting::{Attempted, attempt};
use crate::pieces::{PlainPiece, put};
use std::alloc::{AllocError, Global};
use vx_initial_heap::First;
use vx_link::Program;
use vx_list::{GivenUp, Items};
use vx_plain::{Frame, State};
use vx_plain_start::{before_main, begin_main};
use vx_plain_tables::Tables;
use vx_plain_throw::Next;
use vx_value::{End, MethodId};

/// Where a frame stands.
#[derive(Clone, Copy, Debug, PartialEq, Eq)]
pub struct Place {
    pub method: MethodId,
    pub position: u32,
}

/// What the run of one configuration comes to.
#[derive(Drop)]
pub struct Replay {
    /// The output, a piece for each longest run of one stream.
    pub pieces: Vec<PlainPiece>,
    pub end: End,
    /// How many attempts the run has used.
    pub attempts: u64,
    /// Where the frames stand, the one on top first: in the state in which the last attempt was made, or in the state reached where
    /// the run is unfinished. None where it ended at its start.
    pub frames: Vec<Place>,
}

fn place_of(frame: &Frame) -> Place
    ensures method { result.method.0 ≡ (frame_of frame.now).method }
    ensures position { result.position ≡ (frame_of frame.now).position }
{
    Place {
        method: frame.method,
        position: frame.position,
    }
}

/// Where callers stand, the nearest last.
fn places_below(alloc: Global, callers: &[Frame]) -> Result<Vec<Place>, AllocError>
    ensures { IfOk result (λ places. places_in places.items ≡ map (λ f. (f.method, f.position)) (map frame_of callers.now)) }
{
    let mut places = Vec::new(alloc);
    for frame in callers {
        places.push(place_of(frame))?;
    }
    Ok(places)
}

/// Where the frames of a state stand, the one on top first.
fn places(alloc: Global, state: &State) -> Result<Vec<Place>, AllocError>
    ensures { IfOk result (λ places. places_in places.items ≡ places_of (state_of state.now)) }
{
    let mut places = places_below(alloc, state.callers.as_slice())?;
    places.push(place_of(&state.top))?;
    places.reverse();
    Ok(places)
}

/// Makes attempts until the run ends or the limit is used up: its end, and how many they were.
fn run(
    alloc: Global,
    program: &Program,
    tables: &Tables,
    state: &mut State,
    limit: u64,
    pieces: &mut Vec<PlainPiece>,
) -> Result<(End, u64), GivenUp>
    requires classes { HasClassNumbers program.now }
    requires tables { AreTables program.now tables.now }
    requires none { pieces.old.items ≡ [] }
    ensures { IfOk result (λ r. HasRun (steps program.now limit (Live (fresh_progress (state_of state.old)))) pieces.new.items r.0 r.1 (places_of (state_of state.new))) }
{
    for made in 0..limit {
        let attempted = attempt(alloc, program, tables, state)?;
        let Attempted { next, written } = attempted;
        put(pieces, written)?;
        if let Next::Ends(end) = next {
            return Ok((end, made + 1));
        }
    }
    Ok((End::Unfinished, limit))
}

/// Goes on from the first state.
fn go_on(
    alloc: Global,
    program: &Program,
    tables: &Tables,
    state: &mut State,
    limit: u64,
) -> Result<Replay, GivenUp>
    requires classes { HasClassNumbers program.now }
    requires tables { AreTables program.now tables.now }
    ensures { IfOk result (IsReplay (steps program.now limit (Live (fresh_progress (state_of state.old))))) }
{
    let mut pieces = Vec::new(alloc);
    let (end, attempts) = run(alloc, program, tables, state, limit, &mut pieces)?;
    let frames = places(alloc, state)?;
    Ok(Replay {
        pieces,
        end,
        attempts,
        frames,
    })
}

/// A run that ends at its start.
fn over_at_start(alloc: Global, end: End) -> Replay
    ensures pieces { result.pieces.items ≡ [] }
    ensures end { result.end ≡ end }
    ensures attempts { result.attempts ≡ 0 }
    ensures frames { result.frames.items ≡ [] }
{
    Replay {
        pieces: Vec::new(alloc),
        end,
        attempts: 0,
        frames: Vec::new(alloc),
    }
}

/// Begins with the state before main.
fn run_by(
    alloc: Global,
    program: &Program,
    tables: &Tables,
    state: &mut State,
    limit: u64,
) -> Result<Replay, GivenUp>
    requires classes { HasClassNumbers program.now }
    requires tables { AreTables program.now tables.now }
    ensures { IfOk result (IsReplay (steps program.now limit (started program.now (state_of state.old)))) }
{
    let begun = begin_main(alloc, program, state)?;
    match begun {
        Some(end) => Ok(over_at_start(alloc, end)),
        None => go_on(alloc, program, tables, state, limit),
    }
}

/// Begins with the state before main, and fills the tables.
fn run_from(
    alloc: Global,
    program: &Program,
    literals: Vec<Items<u64>>,
    state: &mut State,
    limit: u64,
) -> Result<Replay, GivenUp>
    requires classes { HasClassNumbers program.now }
    requires short { IsShort program.now }
    requires literals { literals.items ≡ map (λ c. map (literal_object program.now c.pool) c.pool.entries) program.now.classes }
    ensures { IfOk result (IsReplay (steps program.now limit (started program.now (state_of state.old)))) }
{
    let tables = Tables::of(alloc, program, literals)?;
    run_by(alloc, program, &tables, state, limit)
}

/// The run of a program at a configuration, within so many attempts. The only refusal is want of memory.
pub fn run_alone(
    alloc: Global,
    program: &Program,
    config: &[bool],
    limit: u64,
) -> Result<Replay, AllocError>
    requires classes { HasClassNumbers program.now }
    requires core { core_count ≤ length program.now.classes }
    requires short { IsShort program.now }
    ensures { IfOk result (IsReplay (steps program.now limit (start program.now config.now))) }
{
    let first = First::of(alloc, program)?;
    let mut state = before_main(alloc, program, &first, config)?;
    Ok(run_from(alloc, program, first.literals, &mut state, limit)?)
}
