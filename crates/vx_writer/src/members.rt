//! Fields and methods (JVMS 4.5 and 4.6), with no attribute that a reading would pass over. Want of memory leaves the bytes that are there as
//! they were.

ghost use Rattle.std.specs.Prelude.{◌≡◌, ◌++◌, ◌∷◌, [], OnErr, OnOk};
ghost use Rattle.std.specs.List.{flat_map};
ghost use Rattle.vx_class.specs.Spelling.{u2, attributes_bytes};
ghost use Rattle.vx_writer.specs.Written.{constant_attributes, code_attribute, code_attributes, field_bytes, method_bytes};

use crate::code::put_code;
use crate::numbers::{put_count, put_length, put_u2};
use crate::pool::least_place;
use std::alloc::{AllocError, Global};
use vx_class::{Code, Field, Method};
use vx_list::or_cut_back;
use vx_pool::Pool;

/// Three numbers of two bytes: flags, name and descriptor.
fn put_three(out: &mut Vec<u8>, flags: u16, name: u16, descriptor: u16) -> Result<(), AllocError>
    ensures ok { OnOk result (out.new.items ≡ out.old.items ++ (u2 flags ++ (u2 name ++ u2 descriptor))) }
    ensures err { OnErr result (out.new.items ≡ out.old.items) }
{
    let held = out.len();
    put_u2(out, flags)?;
    or_cut_back(put_u2(out, name), out, held)?;
    or_cut_back(put_u2(out, descriptor), out, held)
}

/// The attributes of a field: its constant, where it has one.
fn put_constant(out: &mut Vec<u8>, pool: &Pool, constant: u16) -> Result<(), AllocError>
    ensures ok { OnOk result (out.new.items ≡ out.old.items ++ attributes_bytes (constant_attributes pool.now constant)) }
    ensures err { OnErr result (out.new.items ≡ out.old.items) }
{
    if constant == 0 {
        return put_count(out, 0);
    }
    let held = out.len();
    put_count(out, 1)?;
    or_cut_back(
        put_count(out, least_place(pool, b"ConstantValue")),
        out,
        held,
    )?;
    or_cut_back(put_length(out, 2), out, held)?;
    or_cut_back(put_u2(out, constant), out, held)
}

fn put_field(out: &mut Vec<u8>, pool: &Pool, field: &Field) -> Result<(), AllocError>
    ensures ok { OnOk result (out.new.items ≡ out.old.items ++ field_bytes pool.now field.now) }
    ensures err { OnErr result (out.new.items ≡ out.old.items) }
{
    let held = out.len();
    put_three(out, field.flags, field.name, field.descriptor)?;
    or_cut_back(put_constant(out, pool, field.constant), out, held)
}

pub fn put_fields(out: &mut Vec<u8>, pool: &Pool, fields: &[Field]) -> Result<(), AllocError>
    ensures ok { OnOk result (out.new.items ≡ out.old.items ++ flat_map (field_bytes pool.now) fields.now) }
    ensures err { OnErr result (out.new.items ≡ out.old.items) }
{
    let held = out.len();
    for field in fields {
        or_cut_back(put_field(out, pool, field), out, held)?;
    }
    Ok(())
}

/// The attributes of a method that has code.
fn put_one_code(
    alloc: Global,
    out: &mut Vec<u8>,
    pool: &Pool,
    code: &Code,
) -> Result<(), AllocError>
    ensures ok { OnOk result (out.new.items ≡ out.old.items ++ attributes_bytes (code_attribute pool.now code.now ∷ [])) }
    ensures err { OnErr result (out.new.items ≡ out.old.items) }
{
    let held = out.len();
    put_count(out, 1)?;
    or_cut_back(put_code(alloc, out, pool, code), out, held)
}

/// The attributes of a method: its code, where it has code.
fn put_codes(
    alloc: Global,
    out: &mut Vec<u8>,
    pool: &Pool,
    code: &Option<Code>,
) -> Result<(), AllocError>
    ensures ok { OnOk result (out.new.items ≡ out.old.items ++ attributes_bytes (code_attributes pool.now code.now)) }
    ensures err { OnErr result (out.new.items ≡ out.old.items) }
{
    match code {
        None => put_count(out, 0),
        Some(code) => put_one_code(alloc, out, pool, code),
    }
}

fn put_method(
    alloc: Global,
    out: &mut Vec<u8>,
    pool: &Pool,
    method: &Method,
) -> Result<(), AllocError>
    ensures ok { OnOk result (out.new.items ≡ out.old.items ++ method_bytes pool.now method.now) }
    ensures err { OnErr result (out.new.items ≡ out.old.items) }
{
    let held = out.len();
    put_three(out, method.flags, method.name, method.descriptor)?;
    or_cut_back(put_codes(alloc, out, pool, &method.code), out, held)
}

pub fn put_methods(
    alloc: Global,
    out: &mut Vec<u8>,
    pool: &Pool,
    methods: &[Method],
) -> Result<(), AllocError>
    ensures ok { OnOk result (out.new.items ≡ out.old.items ++ flat_map (method_bytes pool.now) methods.now) }
    ensures err { OnErr result (out.new.items ≡ out.old.items) }
{
    let held = out.len();
    for method in methods {
        or_cut_back(put_method(alloc, out, pool, method), out, held)?;
    }
    Ok(())
}
