//! The classes of a program, from those of class files.

ghost use Rattle.std.specs.Prelude.{◌≡◌, ◌+◌, ◌*◌, ◌<◌, ◌^◌, ◌++◌, length, map, option_map, unwrap_or, IfOk};
ghost use Rattle.vx_link.specs.Faults.{interface_names, name_of, super_name};
ghost use Rattle.vx_link.specs.Linked.{class_id, method_ids, field_ids, own_clinit, linked_class};

use crate::class_numbers::ClassNumbers;
use crate::methods::own_initialiser;
use std::alloc::{AllocError, Global};
use vx_class::{ClassFile, Method};
use vx_link::class_names::{class_name, name_of, super_name};
use vx_link::{AccessFlags, LinkedClass};
use vx_list::Items;
use vx_value::{ClassId, FieldId, MethodId, Name};

fn superclass_of(numbers: &ClassNumbers, class: &ClassFile) -> Option<ClassId>
    requires { length numbers.now.folder + length numbers.now.core < 2 ^ 16 }
    ensures { result ≡ option_map (class_id (numbers.now.folder ++ numbers.now.core)) (super_name class.now) }
{
    match super_name(class) {
        Some(name) => Some(numbers.class_id(name)),
        None => None,
    }
}

fn interfaces_of(
    alloc: Global,
    numbers: &ClassNumbers,
    class: &ClassFile,
) -> Result<Items<ClassId>, AllocError>
    requires { length numbers.now.folder + length numbers.now.core < 2 ^ 16 }
    ensures { IfOk result (λ ids. ids ≡ map (class_id (numbers.now.folder ++ numbers.now.core)) (interface_names class.now)) }
{
    let mut ids = Vec::new(alloc);
    for index in class.interfaces.as_slice() {
        ids.push(numbers.class_id(class_name(&class.pool, *index)))?;
    }
    Ok(Items::of(ids))
}

fn method_ids(alloc: Global, first: u32, count: usize) -> Result<Items<MethodId>, AllocError>
    requires { first + count < 2 ^ 32 }
    ensures { IfOk result (λ ids. ids ≡ method_ids first count) }
{
    let mut ids = Vec::new(alloc);
    for place in 0..count as u32 {
        ids.push(MethodId(first + place))?;
    }
    Ok(Items::of(ids))
}

fn field_ids(alloc: Global, first: u32, count: usize) -> Result<Items<FieldId>, AllocError>
    requires { first + count < 2 ^ 32 }
    ensures { IfOk result (λ ids. ids ≡ field_ids first count) }
{
    let mut ids = Vec::new(alloc);
    for place in 0..count as u32 {
        ids.push(FieldId(first + place))?;
    }
    Ok(Items::of(ids))
}

/// The number of the class's `<clinit>`, or of the method behind its own where it has none.
fn initialiser_of(class: &ClassFile, first: u32) -> MethodId
    requires { first + length class.now.methods < 2 ^ 32 }
    ensures { result.0 ≡ first + unwrap_or (own_clinit class.now) (length class.now.methods) }
{
    let place = own_initialiser(class).unwrap_or(class.methods.len());
    MethodId(first + place as u32)
}

/// The name of a class and its direct superinterfaces.
fn name_and_interfaces(
    alloc: Global,
    numbers: &ClassNumbers,
    class: &ClassFile,
) -> Result<(Name, Items<ClassId>), AllocError>
    requires { length numbers.now.folder + length numbers.now.core < 2 ^ 16 }
    ensures name { IfOk result (λ made. made.0 ≡ name_of class.now) }
    ensures interfaces { IfOk result (λ made. made.1 ≡ map (class_id (numbers.now.folder ++ numbers.now.core)) (interface_names class.now)) }
{
    let name = Name::of(alloc, name_of(class))?;
    let interfaces = interfaces_of(alloc, numbers, class)?;
    Ok((name, interfaces))
}

/// The numbers of the methods and of the fields of a class, from these on.
fn member_ids(
    alloc: Global,
    class: &ClassFile,
    first_method: u32,
    first_field: u32,
) -> Result<(Items<MethodId>, Items<FieldId>), AllocError>
    requires methods { first_method + length class.now.methods < 2 ^ 32 }
    requires fields { first_field + length class.now.fields < 2 ^ 32 }
    ensures methods { IfOk result (λ made. made.0 ≡ method_ids first_method (length class.now.methods)) }
    ensures fields { IfOk result (λ made. made.1 ≡ field_ids first_field (length class.now.fields)) }
{
    let methods = method_ids(alloc, first_method, class.methods.len())?;
    let fields = field_ids(alloc, first_field, class.fields.len())?;
    Ok((methods, fields))
}

/// A class of a program, whose methods and fields are numbered from these on, and its methods, which are still to be linked.
pub fn linked_class(
    alloc: Global,
    numbers: &ClassNumbers,
    class: ClassFile,
    first_method: u32,
    first_field: u32,
) -> Result<(LinkedClass, Items<Method>), AllocError>
    requires names { length numbers.now.folder + length numbers.now.core < 2 ^ 16 }
    requires methods { first_method + length class.methods < 2 ^ 32 }
    requires fields { first_field + length class.fields < 2 ^ 32 }
    ensures class { IfOk result (λ linked. linked.0 ≡ linked_class (numbers.now.folder ++ numbers.now.core) class first_method first_field) }
    ensures methods { IfOk result (λ linked. linked.1 ≡ class.methods) }
{
    let (name, interfaces) = name_and_interfaces(alloc, numbers, &class)?;
    let (methods, fields) = member_ids(alloc, &class, first_method, first_field)?;
    let linked = LinkedClass {
        name,
        superclass: superclass_of(numbers, &class),
        interfaces,
        flags: AccessFlags(class.flags),
        methods,
        fields,
        initialiser: initialiser_of(&class, first_method),
        own_initialiser: own_initialiser(&class).is_some(),
        pool: class.pool,
    };
    Ok((linked, class.methods))
}
