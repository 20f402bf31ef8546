//! The parts of a program, class by class.

ghost use Rattle.std.specs.Prelude.{◌≡◌, ◌+◌, ◌<◌, ◌≤◌, ◌^◌, ◌++◌, [], ◌∷◌, length, map, IfOk, OnOk, if◌then◌else◌};
ghost use Rattle.std.specs.List.{AllByRecursion};
ghost use Rattle.vx_linker.specs.Few.{AreFew, HasFewMembers};
ghost use Rattle.vx_link.specs.Linked.{linked_class, linked_classes, linked_field, fields_from, linked_methods, empty_clinit, methods_of_class, methods_from};
ghost use Rattle.vx_list.specs.Places.{item_or};

use crate::class_numbers::ClassNumbers;
use crate::classes::linked_class;
use crate::fields::add_fields;
use crate::methods::{add_methods, behind_first, empty_initialiser};
use std::alloc::{AllocError, Global};
use vx_class::{ClassFile, Method};
use vx_link::{LinkedClass, LinkedField, LinkedMethod};
use vx_list::Items;
use vx_model::OptionField;
use vx_value::ClassId;

/// The classes of a program up to one of them, with their methods and fields.
#[derive(Drop)]
pub struct Parts {
    pub classes: Items<LinkedClass>,
    pub methods: Items<LinkedMethod>,
    pub fields: Items<LinkedField>,
}

/// Puts the methods of a class behind others: those of its file, and one more where it has no `<clinit>`.
fn add_own_methods(
    alloc: Global,
    number: ClassId,
    class: &LinkedClass,
    methods: Vec<Method>,
    natives: &[u32],
    linked: &mut Vec<LinkedMethod>,
) -> Result<(), AllocError>
    ensures { OnOk result (linked.new.items ≡ linked.old.items ++ (linked_methods number.0 class.now.pool methods.items natives.now ++ (if class.now.own_initialiser then [] else empty_clinit number.0 ∷ []))) }
{
    add_methods(alloc, number, &class.pool, methods, natives, linked)?;
    if !class.own_initialiser {
        linked.push(empty_initialiser(alloc, number)?)?;
    }
    Ok(())
}

fn add_class(
    alloc: Global,
    numbers: &ClassNumbers,
    options: &[OptionField],
    class: ClassFile,
    natives: &[u32],
    parts: Parts,
) -> Result<Parts, AllocError>
    requires names { length numbers.now.folder + length numbers.now.core < 2 ^ 16 }
    requires options { length options.now < 2 ^ 16 }
    requires few { AreFew parts }
    requires room { length parts.classes < 2 ^ 15 }
    requires members { HasFewMembers class }
    ensures classes { IfOk result (λ p. p.classes ≡ parts.classes ++ linked_class (numbers.now.folder ++ numbers.now.core) class (length parts.methods) (length parts.fields) ∷ []) }
    ensures methods { IfOk result (λ p. p.methods ≡ parts.methods ++ methods_of_class (length parts.classes) class natives.now) }
    ensures fields { IfOk result (λ p. p.fields ≡ parts.fields ++ map (linked_field options.now (length parts.classes) class) class.fields) }
{
    let number = ClassId(parts.classes.len() as u32);
    let (first_method, first_field) = (parts.methods.len() as u32, parts.fields.len() as u32);
    let mut fields = parts.fields.into_vec();
    add_fields(alloc, options, number, &class, &mut fields)?;
    let (linked, files) = linked_class(alloc, numbers, class, first_method, first_field)?;
    let mut methods = parts.methods.into_vec();
    add_own_methods(
        alloc,
        number,
        &linked,
        files.into_vec(),
        natives,
        &mut methods,
    )?;
    let mut classes = parts.classes.into_vec();
    classes.push(linked)?;
    Ok(Parts {
        classes: Items::of(classes),
        methods: Items::of(methods),
        fields: Items::of(fields),
    })
}

fn first_row(rows: &[Items<u32>]) -> &[u32]
    ensures { result.now ≡ item_or rows.now 0 [] }
{
    match rows.first() {
        Some(row) => row.as_slice(),
        None => &[],
    }
}

/// The parts with those of some classes behind them, whose native methods have the numbers of as many rows.
pub fn add_classes(
    alloc: Global,
    numbers: &ClassNumbers,
    options: &[OptionField],
    classes: Vec<ClassFile>,
    natives: &[Items<u32>],
    parts: Parts,
) -> Result<Parts, AllocError>
    requires names { length numbers.now.folder + length numbers.now.core < 2 ^ 16 }
    requires options { length options.now < 2 ^ 16 }
    requires few { AreFew parts }
    requires room { length parts.classes + length classes.items ≤ 2 ^ 15 }
    requires members { AllByRecursion HasFewMembers classes.items }
    ensures classes { IfOk result (λ p. p.classes ≡ parts.classes ++ linked_classes (numbers.now.folder ++ numbers.now.core) classes.items (length parts.methods) (length parts.fields)) }
    ensures methods { IfOk result (λ p. p.methods ≡ parts.methods ++ methods_from (length parts.classes) classes.items natives.now) }
    ensures fields { IfOk result (λ p. p.fields ≡ parts.fields ++ fields_from options.now (length parts.classes) classes.items) }
    ensures few { IfOk result (λ p. AreFew p) }
{
    let mut linked = parts;
    let mut rows = natives;
    for class in classes {
        let row = first_row(rows);
        linked = add_class(alloc, numbers, options, class, row, linked)?;
        rows = behind_first(rows);
    }
    Ok(linked)
}
