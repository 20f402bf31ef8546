//! Links 1,024 classes with the core classes, once where one stands below each, and once where two do. The output says how
//! many classes, methods and fields each program has, how many classes have the superclass that their source names, and the
//! last cell of an object of the last class. Its time is measured by hand.
#![tactic(auto)]

ghost use Rattle.std.specs.Prelude.{◌≤◌, All, IfOk, IfSome, length};
ghost use Rattle.vx_class.specs.File.{Holds};

use std::alloc::{AllocError, Global};
use std::io;
use vx_asm::assemble;
use vx_class::{ClassFile, read_class};
use vx_core::core;
use vx_link::Program;
use vx_linker::link;
use vx_model::read_model;
use vx_value::ClassId;

/// How many classes the folder has.
const SIZE: u32 = 1024;

/// The number of the class above a class, where so many stand below each.
fn parent_of(number: u32, below: u32) -> Option<u32> {
    number.checked_sub(1)?.checked_div(below)
}

/// The source of a class.
fn source_of(alloc: Global, number: u32, below: u32) -> Option<String> {
    let superclass = match parent_of(number, below) {
        Some(parent) => format!(in alloc; "C{parent}").ok()?,
        None => format!(in alloc; "java/lang/Object").ok()?,
    };
    format!(in alloc;
        "class 0021 C{number} {superclass}
field 0009 x Z
field 0002 a I
field 0002 b J
field 000a count I
method 0009 main ([Ljava/lang/String;)V 0 1
return
end
method 0001 a ()I 2 1
aload_0
getfield C{number} a I
invokestatic C{number} next (I)I
ireturn
end
method 0009 next (I)I 2 1
iload_0
getstatic C{number} count I
iadd
ireturn
end
"
    )
    .ok()
}

/// A class, as it is read.
fn class_file(alloc: Global, number: u32, below: u32) -> Option<ClassFile>
    ensures { IfSome result Holds }
{
    let source = source_of(alloc, number, below)?;
    let bytes = assemble(alloc, source.as_bytes()).ok()?;
    match read_class(alloc, &bytes) {
        Ok(class) => Some(class),
        Err(_fault) => None,
    }
}

/// The classes in the order of their numbers.
fn folder(alloc: Global, below: u32) -> Result<Vec<ClassFile>, AllocError>
    ensures few { IfOk result (λ classes. length classes.items ≤ 1024) }
    ensures read { IfOk result (λ classes. All Holds classes.items) }
{
    let mut classes = Vec::new(alloc);
    for number in 0..SIZE {
        match class_file(alloc, number, below) {
            Some(class) => classes.push(class)?,
            None => return Err(AllocError),
        }
    }
    Ok(classes)
}

/// The program of some classes, unless memory is wanting.
fn program_of(alloc: Global, classes: Vec<ClassFile>) -> Option<Program>
    requires few { length classes.items ≤ 1024 }
    requires read { All Holds classes.items }
{
    match (core(alloc), read_model(alloc, b"option X C0 x\n")) {
        (Ok(core), Ok(model)) => link(alloc, classes, core, &model, b"C0").ok(),
        _ => None,
    }
}

/// The program of the folder, unless memory is wanting.
fn linked(alloc: Global, below: u32) -> Option<Program> {
    match folder(alloc, below) {
        Ok(classes) => program_of(alloc, classes),
        Err(AllocError) => None,
    }
}

/// How many classes of the folder stand below the class that their source names.
fn placed(program: &Program, below: u32) -> u32 {
    let mut placed: u32 = 0;
    for number in 1..SIZE {
        if let Some(class) = program.classes.get(number as usize) {
            if class.superclass == parent_of(number, below).map(ClassId) {
                placed = placed.saturating_add(1);
            }
        }
    }
    placed
}

/// The last cell of an object of the last class.
fn last_cell(program: &Program) -> Option<u32> {
    let class = program.classes.get(SIZE as usize - 1)?;
    let field = class.fields.get(2)?;
    Some(program.fields.get(field.0 as usize)?.cell)
}

fn print_linked(rt: &HostRuntime, below: u32) -> io::Result<()> {
    let Some(program) = linked(rt.alloc(), below) else {
        return println!(rt; "{below} below each: not linked");
    };
    let classes = program.classes.as_slice().len();
    let methods = program.methods.as_slice().len();
    let fields = program.fields.as_slice().len();
    let placed = placed(&program, below);
    let cell = last_cell(&program).unwrap_or(0);
    println!(rt;
        "{below} below each: {classes} classes, {methods} methods, {fields} fields, {placed} in place, last cell {cell}"
    )
}

fn main(rt: HostRuntime) -> io::Result<()> {
    print_linked(&rt, 1)?;
    print_linked(&rt, 2)
}
