//! A class file (JVMS 4.1), whose parts stand one after the other.

ghost use Rattle.std.specs.Prelude.{◌≡◌, ◌++◌, ℕ, List, OnOk, IfOk};
ghost use Rattle.std.specs.List.{flat_map};
ghost use Rattle.vx_class.specs.Spelling.{u2};
ghost use Rattle.vx_class.specs.File.{File, Holds};
ghost use Rattle.vx_writer.specs.Written.{IsNamed, head_bytes, members_bytes, spelling};

use crate::members::{put_fields, put_methods};
use crate::numbers::{put_count, put_u2, put_u4};
use crate::pool::put_pool;
use std::alloc::{AllocError, Global};
use vx_class::ClassFile;

const MAGIC: u32 = 0xCAFE_BABE;

/// The parts up to the superclass.
#[tactic(auto, unfolding(crate::specs::Written::head_bytes))]
fn put_head(out: &mut Vec<u8>, class: &ClassFile) -> Result<(), AllocError>
    ensures { OnOk result (out.new.items ≡ out.old.items ++ head_bytes class.now) }
{
    put_u4(out, MAGIC)?;
    put_u2(out, class.minor)?;
    put_u2(out, class.major)?;
    put_pool(out, &class.pool)?;
    put_u2(out, class.flags)?;
    put_u2(out, class.this_class)?;
    put_u2(out, class.super_class)
}

fn put_interfaces(out: &mut Vec<u8>, interfaces: &[u16]) -> Result<(), AllocError>
    ensures { OnOk result (out.new.items ≡ out.old.items ++ flat_map u2 interfaces.now) }
{
    for interface in interfaces {
        put_u2(out, *interface)?;
    }
    Ok(())
}

/// The parts from the interfaces on.
#[tactic(auto, unfolding(crate::specs::Written::members_bytes))]
fn put_members(alloc: Global, out: &mut Vec<u8>, class: &ClassFile) -> Result<(), AllocError>
    ensures { OnOk result (out.new.items ≡ out.old.items ++ members_bytes class.now) }
{
    put_count(out, class.interfaces.len())?;
    put_interfaces(out, class.interfaces.as_slice())?;
    put_count(out, class.fields.len())?;
    put_fields(out, &class.pool, class.fields.as_slice())?;
    put_count(out, class.methods.len())?;
    put_methods(alloc, out, &class.pool, class.methods.as_slice())?;
    put_count(out, 0)
}

/// The bytes of a class: its parts one after the other, with no attribute that a reading passes over, and with each
/// attribute named by the least pool entry that spells its name. A count that its number has no room for is written by
/// its lowest bytes; no class that was read has such a count.
#[tactic(auto, using(crate::proofs::Spelled::spelling_holds, crate::proofs::Spelled::holds_spelled))]
pub fn write_class(alloc: Global, class: &ClassFile) -> Result<Vec<u8>, AllocError>
    ensures exact { IfOk result (λ bytes. bytes.items ≡ spelling class.now) }
    // Where a file holds the class, the bytes that are written hold it too.
    ensures again { (file : List ℕ) → File file class.now → IfOk result (λ bytes. File bytes.items class.now) }
    // Where a class meets every check, and its pool has the names of its attributes, the bytes hold it.
    ensures held { Holds class.now → IsNamed class.now → IfOk result (λ bytes. File bytes.items class.now) }
{
    let mut out = Vec::new(alloc);
    put_head(&mut out, class)?;
    put_members(alloc, &mut out, class)?;
    Ok(out)
}
