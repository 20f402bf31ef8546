//! The types whose numbers a store has.

ghost use Rattle.std.specs.Prelude.{◌≡◌, ◌≤◌, ◌^◌, IfOk};
ghost use Rattle.vx_flow.specs.Flowing.{plain};
ghost use Rattle.vx_verify.specs.States.{IsRow, IsStack, IsStore, Stands, locals_at, operands_at, state_at};

use crate::types::VerState;
use std::alloc::{AllocError, Global};
use vx_list::Items;
use vx_types::{VerType, type_copy};
use vx_verify::rows::{Frame, State, local};
use vx_verify::store::Store;

/// The types of local variables.
fn locals_of(
    alloc: Global,
    store: &Store,
    frame: Frame,
    tree: u32,
) -> Result<Vec<VerType>, AllocError>
    requires store { IsStore store.now }
    requires few { frame.levels ≤ 16 }
    requires room { frame.locals ≤ 2 ^ frame.levels }
    requires row { IsRow store.now frame.levels tree }
    ensures { IfOk result (λ types. types.items ≡ locals_at store.now frame tree) }
{
    let mut types = Vec::new(alloc);
    for place in 0..frame.locals {
        let number = local(store, frame, tree, place);
        let copy = type_copy(alloc, store.type_at(number))?;
        types.push(copy)?;
    }
    Ok(types)
}

/// The types of operands, the top first.
fn operands_of(alloc: Global, store: &Store, operands: u32) -> Result<Vec<VerType>, AllocError>
    requires store { IsStore store.now }
    requires operands { IsStack store.now operands }
    ensures { IfOk result (λ types. types.items ≡ operands_at store.now operands) }
{
    let mut types = Vec::new(alloc);
    let mut under = operands;
    while under > 0 {
        let Some((top, rest)) = store.chains.popped(under) else {
            return Ok(types);
        };
        let copy = type_copy(alloc, store.type_at(top))?;
        types.push(copy)?;
        under = rest;
    }
    Ok(types)
}

/// The types of a state.
pub(crate) fn state_of(
    alloc: Global,
    store: &Store,
    frame: Frame,
    state: State,
) -> Result<VerState, AllocError>
    requires store { IsStore store.now }
    requires few { frame.levels ≤ 16 }
    requires room { frame.locals ≤ 2 ^ frame.levels }
    requires stands { Stands store.now frame state }
    ensures { IfOk result (λ made. plain made ≡ state_at store.now frame state) }
{
    let types = locals_of(alloc, store, frame, state.locals)?;
    let tops = operands_of(alloc, store, state.operands)?;
    let locals = Items::of(types);
    let operands = Items::of(tops);
    Ok(VerState { locals, operands })
}
