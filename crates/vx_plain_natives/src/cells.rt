//! Cells of an object that are written from a place on.

ghost use Rattle.std.specs.Prelude.{◌≡◌, ◌++◌, IfOk, OnErr, OnOk};
ghost use Rattle.vx_java.specs.Library.{cells_with};
ghost use Rattle.vx_java.specs.Machine.{object_at, with_cells};
ghost use Rattle.vx_plain.specs.Views.{object_of, state_of, values_of};

use std::alloc::{AllocError, Global};
use vx_plain::{Body, Object, State, Value};

/// The values of three lists, one behind the other.
fn joined(
    alloc: Global,
    front: &[Value],
    values: &[Value],
    behind: &[Value],
) -> Result<Vec<Value>, AllocError>
    ensures { IfOk result (λ made. made.items ≡ front.now ++ (values.now ++ behind.now)) }
{
    let mut made = Vec::from_slice(alloc, front)?;
    made.extend_from_slice(values)?;
    made.extend_from_slice(behind)?;
    Ok(made)
}

/// Cells with others over those from a place on; where there are fewer, the others stand at their end.
#[tactic(auto, using(crate::proofs::Copies::values_put))]
fn cells_with(
    alloc: Global,
    cells: &[Value],
    place: usize,
    values: &[Value],
) -> Result<Vec<Value>, AllocError>
    ensures { IfOk result (λ made. values_of made.items ≡ cells_with (values_of cells.now) place (values_of values.now)) }
{
    let count = cells.len();
    let (front, _) = cells.split_at(place.min(count));
    let (_, behind) = cells.split_at(place.saturating_add(values.len()).min(count));
    joined(alloc, front, values, behind)
}

/// Gives an object other cells.
fn set_cells(object: &mut Object, cells: Vec<Value>)
    ensures { object_of object.new ≡ record (object_of object.old) { cells = values_of cells.items } }
{
    object.body = Body {
        text: None,
        values: cells,
    };
}

/// Gives an object of the heap other cells; one that isn't there stays so.
#[tactic(auto, using(vx_plain::proofs::Heaps::object_absent), unfolding(vx_plain::specs::Views::state_of))]
fn put_cells(state: &mut State, object: u64, cells: Vec<Value>)
    ensures { state_of state.new ≡ with_cells (state_of state.old) object (values_of cells.items) }
{
    let number = object as usize;
    if number >= state.heap.len() {
        return;
    }
    set_cells(&mut state.heap[number], cells);
}

/// Writes cells of an object, all of which hold values, from a place on. Want of memory leaves the state as it was.
pub(crate) fn write_cells(
    alloc: Global,
    state: &mut State,
    object: u64,
    place: usize,
    values: &[Value],
) -> Result<(), AllocError>
    ensures ok { OnOk result (state_of state.new ≡ with_cells (state_of state.old) object (cells_with (object_at (state_of state.old) object).cells place (values_of values.now))) }
    ensures err { OnErr result (state_of state.new ≡ state_of state.old) }
{
    let cells = cells_with(alloc, state.cells(object)?, place, values)?;
    put_cells(state, object, cells);
    Ok(())
}
