//! The first objects in their order (JVMS 5.1, 5.3).

ghost use Rattle.std.specs.Prelude.{◌≡◌, ◌++◌, IfOk, OnErr, OnOk};
ghost use Rattle.std.specs.List.{AllZip};
ghost use Rattle.vx_initial_heap.specs.First.{empty_text, AreFirstObjects};
ghost use Rattle.vx_initial_heap.specs.Literals.{first_of};
ghost use Rattle.vx_initial_heap.specs.Objects.{before_literals, int_object, small_integers, AreObjectsFor, IsLiteralObject, IsObjectFor};
ghost use Rattle.vx_java.specs.FirstObjects.{first_objects, for_main, literals};
ghost use Rattle.vx_java.specs.Ids.{HasClassNumbers};
ghost use Rattle.vx_value.specs.Texts.{Extends};

use crate::core_classes::{CoreClasses, core_classes};
use crate::literal::Literal;
use crate::literals::Literals;
use std::alloc::{AllocError, Global};
use vx_link::Program;
use vx_list::GivenUp;
use vx_value::{ClassId, Slot, TextTable};

/// A first object, with its one cell or without cells. The array for main has no elements, so it has no cells either.
#[derive(Clone, Copy)]
pub struct FirstObject {
    pub class: ClassId,
    pub cell: Option<Slot>,
}

fn int_object(class: ClassId, value: i32) -> FirstObject
    ensures { result ≡ int_object class value }
{
    FirstObject {
        class,
        cell: Some(Slot::Int(value)),
    }
}

fn put_integers(objects: &mut Vec<FirstObject>, class: ClassId) -> Result<(), AllocError>
    ensures { OnOk result (objects.new.items ≡ objects.old.items ++ small_integers class) }
{
    for place in 0..256u16 {
        objects.push(int_object(class, i32::from(place) - 128))?;
    }
    Ok(())
}

/// The objects before the literals.
fn objects_before_literals(
    alloc: Global,
    classes: &CoreClasses,
) -> Result<Vec<FirstObject>, AllocError>
    ensures { IfOk result (λ objects. AreObjectsFor classes.now empty_text before_literals objects.items) }
{
    let mut objects = Vec::new(alloc);
    objects.push(int_object(classes.print_stream, 0))?;
    objects.push(int_object(classes.print_stream, 1))?;
    put_integers(&mut objects, classes.integer)?;
    objects.push(int_object(classes.boolean, 0))?;
    objects.push(int_object(classes.boolean, 1))?;
    Ok(objects)
}

/// The String of a text, which is put into the table of texts, or the class object of a name. Want of memory leaves the texts as they were.
fn literal_object(
    classes: &CoreClasses,
    literal: &Literal,
    texts: &mut TextTable,
) -> Result<FirstObject, AllocError>
    ensures object { IfOk result (IsObjectFor classes.now texts.new.texts (first_of literal.now)) }
    ensures extends { Extends texts.old.texts texts.new.texts }
    ensures err { OnErr result (texts.new.texts ≡ texts.old.texts) }
{
    match literal {
        Literal::Text(units) => Ok(FirstObject {
            class: classes.string,
            cell: Some(Slot::Text(texts.put(units)?)),
        }),
        Literal::Class(_) => Ok(FirstObject {
            class: classes.class,
            cell: None,
        }),
    }
}

/// The objects of literals, whose texts are put into the table of texts.
fn literal_objects(
    alloc: Global,
    classes: &CoreClasses,
    listed: &[Literal],
    texts: &mut TextTable,
) -> Result<Vec<FirstObject>, GivenUp>
    ensures objects { IfOk result (λ objects. AllZip (IsLiteralObject classes.now texts.new.texts) listed.now objects.items) }
    ensures extends { Extends texts.old.texts texts.new.texts }
{
    let mut objects = Vec::new(alloc);
    for literal in listed {
        objects.push(literal_object(classes, literal, texts)?)?;
    }
    Ok(objects)
}

/// The array for main, which is empty.
fn main_object(classes: &CoreClasses) -> FirstObject
    ensures { IsObjectFor classes.now empty_text for_main result }
{
    FirstObject {
        class: classes.strings,
        cell: None,
    }
}

/// The first objects of a program in their order. The texts of literals are put into the table of texts, which begins with
/// the empty one.
pub fn first_objects(
    alloc: Global,
    program: &Program,
    listed: &Literals,
    texts: &mut TextTable,
) -> Result<Vec<FirstObject>, GivenUp>
    requires classes { HasClassNumbers program.now }
    requires literals { listed.now ≡ literals program.now }
    requires texts { texts.old.texts ≡ empty_text }
    ensures objects { IfOk result (λ objects. AreFirstObjects program.now texts.new.texts (first_objects program.now) objects.items) }
    ensures extends { Extends texts.old.texts texts.new.texts }
{
    let classes = core_classes(program);
    let mut objects = objects_before_literals(alloc, &classes)?;
    let named = literal_objects(alloc, &classes, listed.as_slice(), texts)?;
    objects.extend_from_slice(&named)?;
    objects.push(main_object(&classes))?;
    Ok(objects)
}
