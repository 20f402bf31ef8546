//! What linking asks of a class file, in a value of its own, since linking takes the class files for itself.

ghost use Rattle.std.specs.Prelude.{◌≡◌, ◌++◌, IfOk, OnErr, OnOk, map};
ghost use Rattle.vx_link.specs.Faults.{interface_names, super_name};
ghost use Rattle.vx_outlines.specs.Outlines.{flag_names, flag_of, outline_of};

use std::alloc::{AllocError, Global};
use vx_class::{ClassFile, Field};
use vx_link::class_names::{class_name, is_interface, name_of, super_name, utf8};
use vx_linker::{has_main_method, is_option_field};
use vx_list::Items;
use vx_value::Name;

/// A class as linking sees it: its name, its superclass and its superinterfaces, whether it is an interface, whether it has a `main` that
/// can be run, and the names of the fields that an option can have.
#[derive(Drop)]
pub struct Outline {
    pub name: Name,
    pub parent: Option<Name>,
    pub interfaces: Items<Name>,
    pub is_interface: bool,
    pub has_main: bool,
    pub flags: Items<Name>,
}

/// The name of the superclass.
fn parent_of(alloc: Global, class: &ClassFile) -> Result<Option<Name>, AllocError>
    ensures { IfOk result (λ name. name ≡ super_name class.now) }
{
    match super_name(class) {
        Some(name) => Ok(Some(Name::of(alloc, name)?)),
        None => Ok(None),
    }
}

/// The names of the superinterfaces.
fn interfaces_of(alloc: Global, class: &ClassFile) -> Result<Items<Name>, AllocError>
    ensures { IfOk result (λ names. names ≡ interface_names class.now) }
{
    let mut names = Vec::new(alloc);
    for index in class.interfaces.as_slice() {
        names.push(Name::of(alloc, class_name(&class.pool, *index))?)?;
    }
    Ok(Items::of(names))
}

/// Puts the name of a field, if an option can have it. Want of memory leaves the names as they were.
fn put_flag(
    alloc: Global,
    names: &mut Vec<Name>,
    class: &ClassFile,
    field: Field,
) -> Result<(), AllocError>
    ensures ok { OnOk result (names.new.items ≡ names.old.items ++ flag_of class.now field) }
    ensures err { OnErr result (names.new.items ≡ names.old.items) }
{
    let name = utf8(&class.pool, field.name);
    if !is_option_field(class, name, field) {
        return Ok(());
    }
    Ok(names.push(Name::of(alloc, name)?)?)
}

/// The names of the fields that an option can have.
fn flags_of(alloc: Global, class: &ClassFile) -> Result<Items<Name>, AllocError>
    ensures { IfOk result (λ names. names ≡ flag_names class.now) }
{
    let mut names = Vec::new(alloc);
    for field in class.fields.as_slice() {
        put_flag(alloc, &mut names, class, *field)?;
    }
    Ok(Items::of(names))
}

/// The outline of a class.
fn outline_of(alloc: Global, class: &ClassFile) -> Result<Outline, AllocError>
    ensures { IfOk result (λ outline. outline ≡ outline_of class.now) }
{
    let parent = parent_of(alloc, class)?;
    let interfaces = interfaces_of(alloc, class)?;
    let flags = flags_of(alloc, class)?;
    Ok(Outline {
        name: Name::of(alloc, name_of(class))?,
        parent,
        interfaces,
        is_interface: is_interface(class),
        has_main: has_main_method(class),
        flags,
    })
}

/// The outlines of classes, in their order. The only refusal is want of memory.
pub fn outlines(alloc: Global, classes: &[ClassFile]) -> Result<Vec<Outline>, AllocError>
    ensures { IfOk result (λ all. all.items ≡ map outline_of classes.now) }
{
    let mut all = Vec::new(alloc);
    for class in classes {
        all.push(outline_of(alloc, class)?)?;
    }
    Ok(all)
}
