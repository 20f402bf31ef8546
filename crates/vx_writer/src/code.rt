//! The code of a method (JVMS 4.7.3), without attributes of its own.

ghost use Rattle.std.specs.Prelude.{◌≡◌, ◌++◌, [], OnErr, OnOk, IfOk};
ghost use Rattle.std.specs.List.{flat_map};
ghost use Rattle.vx_class.specs.Spelling.{catch_bytes, code_bytes, attribute_bytes};
ghost use Rattle.vx_writer.specs.Written.{code_attribute};

use crate::numbers::{put, put_count, put_length, put_u2};
use crate::pool::least_place;
use std::alloc::{AllocError, Global};
use vx_class::{Catch, Code};
use vx_list::or_cut_back;
use vx_pool::Pool;

fn put_catch(out: &mut Vec<u8>, row: &Catch) -> Result<(), AllocError>
    ensures { OnOk result (out.new.items ≡ out.old.items ++ catch_bytes row.now) }
{
    put_u2(out, row.start)?;
    put_u2(out, row.end)?;
    put_u2(out, row.handler)?;
    put_u2(out, row.class)
}

fn put_catches(out: &mut Vec<u8>, rows: &[Catch]) -> Result<(), AllocError>
    ensures { OnOk result (out.new.items ≡ out.old.items ++ flat_map catch_bytes rows.now) }
{
    for row in rows {
        put_catch(out, row)?;
    }
    Ok(())
}

/// What stands in a code attribute.
fn content(alloc: Global, code: &Code) -> Result<Vec<u8>, AllocError>
    ensures { IfOk result (λ bytes. bytes.items ≡ code_bytes code.now []) }
{
    let mut out = Vec::new(alloc);
    put_u2(&mut out, code.max_stack)?;
    put_u2(&mut out, code.max_locals)?;
    put_length(&mut out, code.bytes.len())?;
    put(&mut out, code.bytes.as_slice())?;
    put_count(&mut out, code.catches.len())?;
    put_catches(&mut out, code.catches.as_slice())?;
    put_count(&mut out, 0)?;
    Ok(out)
}

/// A code attribute. Want of memory leaves the bytes as they were.
#[tactic(auto, unfolding(crate::specs::Written::code_attribute))]
pub fn put_code(
    alloc: Global,
    out: &mut Vec<u8>,
    pool: &Pool,
    code: &Code,
) -> Result<(), AllocError>
    ensures ok { OnOk result (out.new.items ≡ out.old.items ++ attribute_bytes (code_attribute pool.now code.now)) }
    ensures err { OnErr result (out.new.items ≡ out.old.items) }
{
    let content = content(alloc, code)?;
    let held = out.len();
    put_count(out, least_place(pool, b"Code"))?;
    or_cut_back(put_length(out, content.len()), out, held)?;
    or_cut_back(put(out, &content), out, held)
}
