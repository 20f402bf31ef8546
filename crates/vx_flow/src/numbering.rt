//! Types by the numbers that a store has for them.

ghost use Rattle.std.specs.Prelude.{◌≡◌, ◌≤◌, ◌^◌, IfOk, length};
ghost use Rattle.vx_flow.specs.Flowing.{plain};
ghost use Rattle.vx_verify.specs.States.{HasMade, HasNumbers, IsStore};

use crate::types::VerState;
use std::alloc::Global;
use vx_list::GivenUp;
use vx_numbered::EMPTY;
use vx_types::VerType;
use vx_verify::rows::{Frame, State, on_top};
use vx_verify::start::filled;
use vx_verify::store::Store;

/// The numbers of these types, one after the other.
fn numbers_of(alloc: Global, store: &mut Store, items: &[VerType]) -> Result<Vec<u32>, GivenUp>
    requires { IsStore store.old }
    ensures { IfOk result (λ numbers. HasNumbers store.old store.new numbers.items items.now) }
{
    let mut numbers = Vec::new(alloc);
    for item in items {
        let number = store.put_type(alloc, item)?;
        numbers.push(number)?;
    }
    Ok(numbers)
}

/// A state by the numbers of its types.
pub(crate) fn numbered(
    alloc: Global,
    store: &mut Store,
    frame: Frame,
    state: &VerState,
) -> Result<State, GivenUp>
    requires store { IsStore store.old }
    requires few { frame.levels ≤ 16 }
    requires room { frame.locals ≤ 2 ^ frame.levels }
    requires locals { length state.now.locals ≡ frame.locals }
    ensures { IfOk result (λ made. HasMade store.old store.new frame made (plain state.now)) }
{
    let types = numbers_of(alloc, store, state.locals.as_slice())?;
    let locals = filled(store, frame, &types)?;
    let tops = numbers_of(alloc, store, state.operands.as_slice())?;
    let operands = on_top(store, &tops, EMPTY)?;
    Ok(State { locals, operands })
}
