//! How a call of the program ends.

ghost use Rattle.std.specs.Prelude.{◌≡◌};
ghost use Rattle.vx_plans.specs.Status.{code_of, name_of};

use std::alloc::{AllocError, AllocFailed};
use vx_link::LinkFault;
use vx_space::SpaceFault;
use vx_value::Name;

/// How a call ends, with what shows it.
#[derive(Debug, Drop)]
pub enum Status {
    /// The text was written to `out`.
    Done,
    /// Memory was wanting, in the program or in a sink.
    NoMemory,
    /// The words spell no command.
    Usage,
    /// A folder could not be listed, or a file not be read.
    ReadFault { path: Name },
    /// `out` refused the text, of which it may have taken a part.
    WriteFault,
    /// The model has no reading: its first bad line, with the least reason.
    BadModel { line: u64, reason: u8 },
    /// No configuration meets the rules of the model.
    NoConfiguration,
    /// A file is no class file: the place and the reason of the first check that fails.
    BadClass { path: Name, at: u64, reason: u8 },
    /// The classes don't link.
    BadLink { fault: LinkFault },
    /// A file is no report: its first bad line.
    BadReport { line: u64 },
    /// The configuration is not among those that are asked for.
    NotAllowed,
    /// A source can't be assembled: its first bad line, with the least reason.
    BadSource { line: u64, reason: u8 },
    /// A file has more than `room` bytes, or a folder more than `room` class files.
    TooLarge { path: Name, room: u64 },
    /// Two reports have different options, or, where they are joined, different limits or versions.
    Unlike,
    /// No report says what several reports say: their rounds pass 128 bits, or there would be no number of attempts.
    NotJoinable,
    /// A configuration ends otherwise than it should. The text that tells so was written to `out`.
    Failing,
    /// A configuration is told differently by two reports. The text that tells so was written to `out`.
    Differing,
    /// What is expected has no reading: its first bad line, with the least reason.
    BadExpected { line: u64, reason: u8 },
}

impl From<AllocError> for Status {
    ghost use Rattle.std.specs.Prelude.{◌≡◌};
    ghost use Rattle.vx_plans.specs.declared.status.Status.TheVariants.{NoMemory};

    ghost from_gives = { λ _ e. e ≡ NoMemory };

    fn from(_e: AllocError) -> Status {
        Status::NoMemory
    }
}

impl<T: Drop> From<AllocFailed<T>> for Status {
    ghost use Rattle.std.specs.Prelude.{◌≡◌};
    ghost use Rattle.vx_plans.specs.declared.status.Status.TheVariants.{NoMemory};

    ghost from_gives = { λ _ e. e ≡ NoMemory };

    fn from(_e: AllocFailed<T>) -> Status {
        Status::NoMemory
    }
}

impl From<SpaceFault> for Status {
    ghost use Rattle.std.specs.Prelude.{◌≡◌};
    ghost use Rattle.vx_plans.specs.declared.status.Status.TheVariants.{NoMemory};

    ghost from_gives = { λ _ e. e ≡ NoMemory };

    fn from(_e: SpaceFault) -> Status {
        Status::NoMemory
    }
}

impl Status {
    /// The code with which the program ends.
    pub fn code(&self) -> u8
        ensures { result ≡ code_of self.now }
    {
        match self {
            Status::Done => 0,
            Status::NoMemory => 1,
            Status::Usage => 2,
            Status::ReadFault { .. } => 3,
            Status::WriteFault => 4,
            Status::BadModel { .. } => 5,
            Status::NoConfiguration => 6,
            Status::BadClass { .. } => 7,
            Status::BadLink { .. } => 8,
            Status::BadReport { .. } => 10,
            Status::NotAllowed => 11,
            Status::BadSource { .. } => 12,
            Status::TooLarge { .. } => 13,
            Status::Unlike => 14,
            Status::NotJoinable => 18,
            Status::Failing => 15,
            Status::Differing => 16,
            Status::BadExpected { .. } => 17,
        }
    }

    /// The name of the code.
    pub fn name(&self) -> &'static [u8]
        ensures { result.now ≡ name_of self.now }
    {
        match self {
            Status::Done => b"done",
            Status::NoMemory => b"no memory",
            Status::Usage => b"usage",
            Status::ReadFault { .. } => b"read fault",
            Status::WriteFault => b"write fault",
            Status::BadModel { .. } => b"bad model",
            Status::NoConfiguration => b"no configuration",
            Status::BadClass { .. } => b"bad class",
            Status::BadLink { .. } => b"bad link",
            Status::BadReport { .. } => b"bad report",
            Status::NotAllowed => b"not allowed",
            Status::BadSource { .. } => b"bad source",
            Status::TooLarge { .. } => b"too large",
            Status::Unlike => b"unlike",
            Status::NotJoinable => b"not joinable",
            Status::Failing => b"failing",
            Status::Differing => b"differing",
            Status::BadExpected { .. } => b"bad expected",
        }
    }
}
