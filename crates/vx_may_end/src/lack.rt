//! Something that is left out, and where.

ghost use Rattle.std.specs.Prelude.{◌≡◌, ◌++◌, OnOk, codes};
ghost use Rattle.vx_may_end.specs.Lacks.{lack};

use std::alloc::{AllocError, Global};
use vx_list::Items;
use vx_value::{ClassId, MethodId, Name};

/// When an attempt of an instruction comes to what is left out.
#[derive(Clone, Copy)]
pub enum When {
    /// Each time: none goes on behind the instruction.
    Always,
    /// By what a run has come to: not where an operand is null, or a class is initialised.
    Perhaps,
    /// Where the receiver is an object of this class, or for Object an array.
    On(ClassId),
}

/// Something that is left out: the number of its word in an end, its name or `-`, and when an attempt comes to it.
#[derive(Drop)]
pub struct Lack {
    pub word: u8,
    pub what: Name,
    pub when: When,
}

/// An instruction that lacks something: where it stands, and what it lacks.
#[derive(Drop)]
pub struct Spot {
    pub method: MethodId,
    pub position: u32,
    pub lacks: Items<Lack>,
}

/// The numbers of the words for what ends a run as unsupported.
pub(crate) const FLOAT: u8 = 1;

pub(crate) const CONSTANT: u8 = 4;

pub(crate) const NATIVE: u8 = 5;

pub(crate) const CLASS: u8 = 6;

pub(crate) const FIELD: u8 = 7;

pub(crate) const METHOD: u8 = 8;

/// Puts a lack behind others.
pub(crate) fn put_lack(
    out: &mut Vec<Lack>,
    when: When,
    word: u8,
    what: Name,
) -> Result<(), AllocError>
    ensures { OnOk result (out.new.items ≡ out.old.items ++ lack when word what) }
{
    Ok(out.push(Lack { word, what, when })?)
}

/// Puts a lack of a name behind others.
pub(crate) fn put_named(
    alloc: Global,
    out: &mut Vec<Lack>,
    when: When,
    word: u8,
    name: &[u8],
) -> Result<(), AllocError>
    ensures { OnOk result (out.new.items ≡ out.old.items ++ lack when word name.now) }
{
    let what = Name::of(alloc, name)?;
    put_lack(out, when, word, what)
}

/// Puts a lack that has no name behind others. No run passes it.
pub(crate) fn put_nameless(alloc: Global, out: &mut Vec<Lack>, word: u8) -> Result<(), AllocError>
    ensures { OnOk result (out.new.items ≡ out.old.items ++ lack When.Always word (codes "-")) }
{
    put_named(alloc, out, When::Always, word, b"-")
}
