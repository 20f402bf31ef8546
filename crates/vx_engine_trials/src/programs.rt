//! From the sources of classes to a program with the model of its options.

ghost use Rattle.std.specs.Prelude.{◌≡◌, All, IfOk, length, true};
ghost use Rattle.vx_class.specs.File.{Holds};
ghost use Rattle.vx_families.specs.Bounds.{IsBounded};
ghost use Rattle.vx_heap.specs.Heap.{has_options};
ghost use Rattle.vx_model.specs.Models.{IsModel};

use std::alloc::Global;
use std::test::Fail;
use vx_asm::assemble;
use vx_class::{ClassFile, read_class};
use vx_core::core;
use vx_link::Program;
use vx_linker::link;
use vx_model::{Model, read_model};
use vx_program_bounds::linked_are_bounded;

/// A linked program, and the model of its options.
#[derive(Drop)]
pub struct Example {
    pub program: Program,
    pub model: Model,
}

/// The class that a source names.
fn class(alloc: Global, source: &[u8]) -> Result<ClassFile, Fail>
    ensures { IfOk result Holds }
{
    let Ok(bytes) = assemble(alloc, source) else {
        return Err(Fail::new("the source names no class"));
    };
    Ok(read_class(alloc, bytes.as_slice())?)
}

/// The folder of the one class that a source names.
fn folder(alloc: Global, source: &[u8]) -> Result<Vec<ClassFile>, Fail>
    ensures few { IfOk result (λ classes. length classes.items ≡ 1) }
    ensures read { IfOk result (λ classes. All Holds classes.items) }
{
    let mut classes = Vec::new(alloc);
    classes.push(class(alloc, source)?)?;
    Ok(classes)
}

/// The program of the source of the class `Main` and a model, linked with the core classes.
pub fn linked(alloc: Global, source: &[u8], model: &[u8]) -> Result<Example, Fail>
    ensures bounded { IfOk result (λ example. IsBounded example.program) }
    ensures options { IfOk result (λ example. has_options (length example.model.options) example.program.fields ≡ true) }
    ensures lawful { IfOk result (λ example. IsModel example.model) }
{
    let classes = folder(alloc, source)?;
    let core = core(alloc)?;
    let model = read_model(alloc, model)?;
    linked_are_bounded();
    let program = link(alloc, classes, core, &model, b"Main")?;
    Ok(Example { program, model })
}
