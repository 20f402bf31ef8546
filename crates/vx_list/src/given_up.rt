//! Want of memory in a call that gives up what it changes.

use std::alloc::{AllocError, AllocFailed};
use thiserror::Error;

/// Want of memory in a call that gives up what it was lent by `&mut` (a class that is being made, the state of a run): nothing is said of it
/// from then on but that it may be dropped. A call whose want of memory is an `AllocError` leaves what it was lent as it was.
#[derive(Clone, Copy, Debug, PartialEq, Eq, Error)]
#[error("out of memory")]
pub struct GivenUp(AllocError);

impl From<AllocError> for GivenUp {
    fn from(error: AllocError) -> GivenUp {
        GivenUp(error)
    }
}

impl<T: Drop> From<AllocFailed<T>> for GivenUp {
    fn from(failed: AllocFailed<T>) -> GivenUp {
        GivenUp(AllocError::from(failed))
    }
}

impl From<GivenUp> for AllocError {
    fn from(given_up: GivenUp) -> AllocError {
        given_up.0
    }
}
