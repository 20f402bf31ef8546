//! The rounds of a program over the space of diagrams, and what stands after each of them.

ghost use Rattle.std.specs.Prelude.{◌≡◌, ◌<◌, OnOk, length, true};
ghost use Rattle.vx_families.specs.Bounds.{IsBounded};
ghost use Rattle.vx_heap.specs.Heap.{has_options};
ghost use Rattle.vx_model.specs.Models.{IsModel};
ghost use Rattle.vx_standing.specs.State.{IsState, IsTreeKnown};

use std::alloc::Global;
use std::test::Fail;
use vx_bdd::BddSpace;
use vx_engine_trials::programs::{Example, linked};
use vx_link::Program;
use vx_model::allowed;
use vx_rounds::step_group;
use vx_sched::{Picker, keys_of};
use vx_space::Space;
use vx_standing::State;
use vx_starting::start;

/// The most attempts of a run, and more rounds than the runs make.
const LIMIT: u64 = 100_000;

/// What a run came to.
#[derive(Clone, Copy)]
pub struct Counts {
    /// How many rounds were made.
    pub rounds: u64,
    /// How many sets the space knew after a round, at most.
    pub most_sets: u64,
    /// How many frames of callers stood after a round, at most.
    pub most_callers: usize,
}

/// A round with the group that is picked, between a compaction and a sweep.
fn round<S: Space, K: Picker>(
    alloc: Global,
    program: &Program,
    space: &mut S,
    state: &mut State<S>,
    picker: &mut K,
) -> Result<(), Fail>
    requires state { IsState program.now (S.sets space.old) state.old.heap.allowed state.old }
    requires tree { IsTreeKnown (S.sets space.old) state.old }
    requires some { 0 < length state.old.groups }
    ensures state { OnOk result (IsState program.now (S.sets space.new) state.new.heap.allowed state.new) }
    ensures tree { OnOk result (IsTreeKnown (S.sets space.new) state.new) }
{
    let keys = keys_of(alloc, state.groups())?;
    let which = picker.pick(keys.as_slice());
    step_group(alloc, program, space, state, which)?;
    Ok(())
}

/// Makes rounds until no group is left, and counts after each what the space knows, and the callers.
fn make_rounds<S: Space, K: Picker>(
    alloc: Global,
    example: &Example,
    space: &mut S,
    picker: &mut K,
) -> Result<Counts, Fail>
    requires bounded { IsBounded example.now.program }
    requires fields { has_options (length example.now.model.options) example.now.program.fields ≡ true }
    requires lawful { IsModel example.now.model }
    requires options { (S.sets space.old).options ≡ length example.now.model.options }
{
    let allowed = allowed(space, &example.model)?;
    if space.is_never(allowed) {
        return Err(Fail::new("the model allows nothing"));
    }
    let mut state = start(alloc, &example.program, space, allowed, LIMIT)?;
    let mut most_sets = 0;
    let mut most_callers = 0;
    'rounds: for rounds in 0..LIMIT {
        if state.groups().is_empty() {
            return Ok(Counts {
                rounds,
                most_sets,
                most_callers,
            });
        }
        round(alloc, &example.program, space, &mut state, picker)?;
        most_sets = most_sets.max(space.count());
        most_callers = most_callers.max(state.callers.len());
    }
    Err(Fail::new("the runs make more rounds"))
}

/// The rounds of a program of at most 20 options.
pub fn rounds_of<K: Picker>(
    alloc: Global,
    source: &[u8],
    model: &[u8],
    picker: &mut K,
) -> Result<Counts, Fail> {
    let example = linked(alloc, source, model)?;
    let options = example.model.options.len();
    if options > 20 {
        return Err(Fail::new("the model has more options"));
    }
    let mut space = BddSpace::new(alloc, options as u32)?;
    make_rounds(alloc, &example, &mut space, picker)
}
