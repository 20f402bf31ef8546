//! The fields of a program, from those of class files. Their cells are laid out later.

ghost use Rattle.std.specs.Prelude.{◌≡◌, ◌<◌, ◌^◌, ◌++◌, length, map, position, IfOk, IfSome, OnErr, OnOk};
ghost use Rattle.vx_link.specs.Faults.{name_of};
ghost use Rattle.vx_link.specs.Names.{utf8};
ghost use Rattle.vx_link.specs.Linked.{is_place, option_of, field_flags, linked_field};
ghost use Rattle.vx_linker.specs.Texts.{AreTexts};

use crate::judging::BOOLEAN;
use crate::shared_texts::SharedTexts;
use std::alloc::{AllocError, Global};
use vx_class::{ClassFile, Field, STATIC};
use vx_link::class_names::{is_interface, name_of, utf8};
use vx_link::{AccessFlags, LinkedField};
use vx_model::{FieldPlace, OptionField};
use vx_value::ClassId;

fn is_place(class: &[u8], field: &[u8], place: &Option<FieldPlace>) -> bool
    ensures { result ≡ is_place class.now field.now place.now }
{
    match place {
        Some(place) => place.class.bytes() == class && place.field.bytes() == field,
        None => false,
    }
}

fn place_of_option(options: &[OptionField], class: &[u8], field: &[u8]) -> Option<usize>
    ensures place { result ≡ position (λ o. is_place class.now field.now o.place) options.now }
    ensures within { IfSome result (λ place. place < length options.now) }
{
    options
        .iter()
        .position(|option| is_place(class, field, &option.place))
}

/// The option whose field this is; its descriptor is `Z`.
fn option_of(options: &[OptionField], class: &ClassFile, field: Field) -> Option<u32>
    requires { length options.now < 2 ^ 16 }
    ensures { result ≡ option_of options.now class.now field }
{
    if utf8(&class.pool, field.descriptor) != BOOLEAN {
        return None;
    }
    match place_of_option(options, name_of(class), utf8(&class.pool, field.name)) {
        Some(place) => Some(place as u32),
        None => None,
    }
}

/// The flags of a field. A field of an interface is static (JVMS 4.5).
fn field_flags(class: &ClassFile, flags: u16) -> AccessFlags
    ensures { result.0 ≡ field_flags class.now flags }
{
    if is_interface(class) {
        AccessFlags(flags | STATIC)
    } else {
        AccessFlags(flags)
    }
}

fn linked_field(
    alloc: Global,
    options: &[OptionField],
    number: ClassId,
    class: &ClassFile,
    texts: &mut SharedTexts,
    field: Field,
) -> Result<LinkedField, AllocError>
    requires options { length options.now < 2 ^ 16 }
    requires texts { AreTexts class.now.pool texts.old.known.items }
    ensures linked { IfOk result (λ linked. linked ≡ linked_field options.now number.0 class.now field) }
    ensures texts { AreTexts class.now.pool texts.new.known.items }
{
    Ok(LinkedField {
        class: number,
        name: texts.text(alloc, &class.pool, field.name)?,
        descriptor: texts.text(alloc, &class.pool, field.descriptor)?,
        flags: field_flags(class, field.flags),
        cell: 0,
        constant: field.constant,
        option: option_of(options, class, field),
    })
}

/// The fields of a class file.
fn linked_fields(
    alloc: Global,
    options: &[OptionField],
    number: ClassId,
    class: &ClassFile,
) -> Result<Vec<LinkedField>, AllocError>
    requires { length options.now < 2 ^ 16 }
    ensures { IfOk result (λ linked. linked.items ≡ map (linked_field options.now number.0 class.now) class.now.fields) }
{
    let mut linked = Vec::new(alloc);
    let fields = class.fields.as_slice();
    if fields.is_empty() {
        return Ok(linked);
    }
    let mut texts = SharedTexts::none(alloc, &class.pool)?;
    for field in fields {
        linked.push(linked_field(alloc, options, number, class, &mut texts, *field)?)?;
    }
    Ok(linked)
}

/// Puts the fields of a class file behind others, which want of memory leaves as they were.
pub fn add_fields(
    alloc: Global,
    options: &[OptionField],
    number: ClassId,
    class: &ClassFile,
    linked: &mut Vec<LinkedField>,
) -> Result<(), AllocError>
    requires { length options.now < 2 ^ 16 }
    ensures ok { OnOk result (linked.new.items ≡ linked.old.items ++ map (linked_field options.now number.0 class.now) class.now.fields) }
    ensures err { OnErr result (linked.new.items ≡ linked.old.items) }
{
    let mut fields = linked_fields(alloc, options, number, class)?;
    linked.append(&mut fields)
}
