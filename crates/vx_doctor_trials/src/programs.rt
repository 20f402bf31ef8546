//! From the source of a class to a program.

ghost use Rattle.std.specs.Prelude.{◌≡◌, All, IfOk, length};
ghost use Rattle.vx_class.specs.File.{Holds};
ghost use Rattle.vx_families.specs.Bounds.{IsBounded};

use std::alloc::Global;
use std::test::Fail;
use vx_asm::assemble;
use vx_class::{ClassFile, read_class};
use vx_core::core;
use vx_link::Program;
use vx_linker::link;
use vx_model::read_model;
use vx_program_bounds::linked_are_bounded;

/// The class that a source names.
fn class(alloc: Global, source: &[u8]) -> Result<ClassFile, Fail>
    ensures { IfOk result Holds }
{
    let Ok(bytes) = assemble(alloc, source) else {
        return Err(Fail::new("the source names no class"));
    };
    Ok(read_class(alloc, bytes.as_slice())?)
}

/// The folder of the one class that a source names.
pub(crate) fn folder(alloc: Global, source: &[u8]) -> Result<Vec<ClassFile>, Fail>
    ensures few { IfOk result (λ classes. length classes.items ≡ 1) }
    ensures read { IfOk result (λ classes. All Holds classes.items) }
{
    let mut classes = Vec::new(alloc);
    classes.push(class(alloc, source)?)?;
    Ok(classes)
}

/// The program of the source of the class `Main`, without options, linked with the core classes.
pub(crate) fn linked(alloc: Global, source: &[u8]) -> Result<Program, Fail>
    ensures { IfOk result IsBounded }
{
    let classes = folder(alloc, source)?;
    let core = core(alloc)?;
    let model = read_model(alloc, b"")?;
    linked_are_bounded();
    let program = link(alloc, classes, core, &model, b"Main")?;
    Ok(program)
}
