//! Why a call on files or on a sink was refused.

ghost use Rattle.std.specs.Prelude.{◌≡◌};
ghost use Rattle.vx_io.specs.declared.fault.FileFault.TheVariants.{NoMemory};

use std::alloc::{AllocError, AllocFailed};
use thiserror::Error;

/// Why a listing or a read was refused.
#[derive(Clone, Copy, Debug, PartialEq, Eq, Error)]
pub enum FileFault {
    #[error("no memory")]
    NoMemory = 1,
    #[error("the file or folder could not be read")]
    Failed = 2,
}

/// Why a write was refused.
#[derive(Clone, Copy, Debug, PartialEq, Eq, Error)]
pub enum SinkFault {
    #[error("no memory")]
    NoMemory = 1,
    #[error("the sink could not be written")]
    Failed = 2,
}

impl From<AllocError> for FileFault {
    ghost from_gives = { λ _ e. e ≡ NoMemory };

    fn from(_e: AllocError) -> FileFault {
        FileFault::NoMemory
    }
}

impl<T: Drop> From<AllocFailed<T>> for FileFault {
    ghost from_gives = { λ _ e. e ≡ NoMemory };

    fn from(_e: AllocFailed<T>) -> FileFault {
        FileFault::NoMemory
    }
}
