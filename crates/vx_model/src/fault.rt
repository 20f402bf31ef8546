//! Why a text is no model.

ghost use Rattle.vx_model.specs.declared.fault.ModelFault.TheVariants.{NoMemory};
ghost use Rattle.std.specs.Prelude.{◌≡◌};

use std::alloc::{AllocError, AllocFailed};
use thiserror::Error;

/// Why no model is given: want of memory, or the first bad line, from 1 on, with the least reason that applies to it.
#[derive(Clone, Copy, Debug, PartialEq, Eq, Error)]
pub enum ModelFault {
    #[error("out of memory")]
    NoMemory,
    #[error("line {line}, reason {reason}")]
    Line { line: u64, reason: u8 },
}

impl From<AllocError> for ModelFault {
    ghost from_gives = { λ _ e. e ≡ NoMemory };

    fn from(_error: AllocError) -> ModelFault {
        ModelFault::NoMemory
    }
}

impl<T: Drop> From<AllocFailed<T>> for ModelFault {
    ghost from_gives = { λ _ e. e ≡ NoMemory };

    fn from(_error: AllocFailed<T>) -> ModelFault {
        ModelFault::NoMemory
    }
}
