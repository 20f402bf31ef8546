//! What the entries of a pool are to a load of a constant (JVMS 6.5 ldc, ldc_w, ldc2_w).

ghost use Rattle.std.specs.Prelude.{◌≡◌, ◌<◌, ◌^◌, IfOk, codes, length};
ghost use Rattle.vx_pool.specs.Lookups.{entry_of};
ghost use Rattle.vx_link.specs.Names.{utf8};
ghost use Rattle.vx_link.specs.Parts.{class_at};
ghost use Rattle.vx_locals.specs.Constants.{constant_of};

use std::alloc::{AllocError, Global};
use vx_families::{CONSTANT_WORD, FLOAT_WORD};
use vx_link::Program;
use vx_pool::{Entry, Pool, entry_of, text};
use vx_value::{ClassId, Name, Slot};

/// What an entry of a pool is to a load of a constant.
#[derive(Clone, Copy, Debug)]
pub enum Constant {
    /// An int or a long.
    Number(Slot),
    /// A string literal.
    Literal,
    /// A class, by the index of its name.
    Class(u16),
    /// A constant of a kind that is left out, by the number of its word.
    LeftOut(u8),
    /// An entry that is no constant, or none.
    Unloadable,
}

fn constant_in(pool: &Pool, index: u16) -> Constant
    ensures { result ≡ constant_of (entry_of pool.now index) }
{
    match entry_of(pool, index) {
        Some(Entry::Integer(n)) => Constant::Number(Slot::Int(*n)),
        Some(Entry::Long(n)) => Constant::Number(Slot::Long(*n)),
        Some(Entry::Text(_)) => Constant::Literal,
        Some(Entry::Class(name)) => Constant::Class(*name),
        Some(Entry::Float(_) | Entry::Double(_)) => Constant::LeftOut(FLOAT_WORD),
        Some(Entry::MethodHandle(_, _) | Entry::MethodType(_)) => {
            Constant::LeftOut(CONSTANT_WORD)
        }
        _ => Constant::Unloadable,
    }
}

/// What the entry of an index is, in the pool of a class.
pub(crate) fn constant_of(program: &Program, class: ClassId, index: u16) -> Constant
    ensures { result ≡ constant_of (entry_of (class_at program.now class.0).pool index) }
{
    match program.class(class) {
        Some(class) => constant_in(&class.pool, index),
        None => Constant::Unloadable,
    }
}

/// The text of an index, in the pool of a class.
pub(crate) fn text_of(program: &Program, class: ClassId, index: u16) -> &[u8]
    ensures value { result.now ≡ utf8 (class_at program.now class.0).pool index }
    ensures few { length result.now < 2 ^ 16 }
{
    match program.class(class) {
        Some(class) => text(&class.pool, index).unwrap_or(&[]),
        None => &[],
    }
}

/// What an end names that names nothing.
pub(crate) fn nothing(alloc: Global) -> Result<Name, AllocError>
    ensures { IfOk result (λ name. name ≡ codes "-") }
{
    Name::of(alloc, b"-")
}
