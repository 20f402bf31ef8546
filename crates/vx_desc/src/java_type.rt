//! What descriptors say (JVMS 4.3).

ghost use Rattle.std.specs.Prelude.{◌≡◌};
ghost use Rattle.vx_desc.specs.declared.java_type.DescFault.TheVariants.{NoMemory};

use std::alloc::{AllocError, AllocFailed};
use vx_list::Items;

/// The type that a descriptor begins with, behind its `[`.
#[derive(Clone, Copy, Debug, PartialEq, Eq)]
pub enum Base {
    Bool,
    Byte,
    Char,
    Double,
    Float,
    Int,
    Long,
    Short,
    Class,
}

/// A type: an array of `dimensions`, from 0 to 255, over a base. The name of a class stands in the descriptor's bytes from
/// `from` up to `end`; both are 0 for any other base.
#[derive(Clone, Copy, Debug, PartialEq, Eq)]
pub struct JavaType {
    pub base: Base,
    pub dimensions: u8,
    pub from: u32,
    pub end: u32,
}

/// What a descriptor says. The type of a field stands in `result`, with no arguments; a method whose result is `V` has
/// none.
#[derive(Debug, Drop)]
pub struct Descriptor {
    pub arguments: Items<JavaType>,
    pub result: Option<JavaType>,
}

/// Why a descriptor cannot be read.
#[derive(Clone, Copy, Debug, PartialEq, Eq)]
pub enum DescFault {
    NoMemory,
    Bad,
}

impl From<AllocError> for DescFault {
    ghost from_gives = { λ _ e. e ≡ NoMemory };

    fn from(_e: AllocError) -> DescFault {
        DescFault::NoMemory
    }
}

impl<T: Drop> From<AllocFailed<T>> for DescFault {
    ghost from_gives = { λ _ e. e ≡ NoMemory };

    fn from(_e: AllocFailed<T>) -> DescFault {
        DescFault::NoMemory
    }
}
