//! A throwable and its causes.

ghost use Rattle.std.specs.List.{list_any};
ghost use Rattle.std.specs.Prelude.{◌≡◌, ◌==◌, IfOk};
ghost use Rattle.vx_plain.specs.Views.{state_of};
ghost use Rattle.vx_trace.specs.TraceText.{chain};

use std::alloc::{AllocError, Global};
use vx_plain::{State, Value};

/// The most causes that are told.
const MOST: u32 = 1024;

fn is_of(other: &u64, object: u64) -> bool
    ensures { result ≡ (other.now == object) }
{
    *other == object
}

/// Whether an object was told.
fn is_told(told: &[u64], object: u64) -> bool
    ensures { result ≡ list_any (λ other. other == object) told.now }
{
    told.iter().any(|other| is_of(other, object))
}

/// A throwable and its causes, each the cause of the one before, up to one that was told, and at most 1,024 causes.
pub(crate) fn chain(alloc: Global, state: &State, object: u64) -> Result<Vec<u64>, AllocError>
    ensures { IfOk result (λ told. told.items ≡ chain (state_of state.now) object) }
{
    let mut told = Vec::new(alloc);
    told.push(object)?;
    let mut last = object;
    for _cause in 0..MOST {
        let value = state.cell(last, 1)?;
        let Value::Ref(cause) = value else {
            return Ok(told);
        };
        if is_told(told.as_slice(), cause) {
            return Ok(told);
        }
        told.push(cause)?;
        last = cause;
    }
    Ok(told)
}
