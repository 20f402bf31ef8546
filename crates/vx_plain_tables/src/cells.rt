//! The cells with which objects begin (JVMS 2.3, 2.4).

ghost use Rattle.std.specs.Prelude.{◌≡◌, ◌++◌, IfOk, OnOk, Some};
ghost use Rattle.vx_java.specs.FirstObjects.{new_cells, new_object, own_cells};
ghost use Rattle.vx_plain.specs.Views.{object_of, values_of, cells_of};
ghost use Rattle.vx_plain_tables.specs.Cells.{is_text, plain_of, values_in};

use std::alloc::{AllocError, Global};
use vx_initial_heap::default_of;
use vx_java::parts::{descriptor_of_field, fields_of};
use vx_java::superclasses;
use vx_link::Program;
use vx_plain::{Body, Object, Value, held};
use vx_references::fields::is_static_field;
use vx_value::{ClassId, Slot};

/// The value of a slot; `None` where it names a text.
fn value_in(slot: Slot) -> Option<Value>
    ensures { result ≡ plain_of slot }
{
    match slot {
        Slot::Top => Some(Value::Top),
        Slot::Int(n) => Some(Value::Int(n)),
        Slot::Long(n) => Some(Value::Long(n)),
        Slot::Null => Some(Value::Null),
        Slot::Ref(object) => Some(Value::Ref(object)),
        Slot::Text(_) => None,
    }
}

/// Appends what the instance fields of a class itself begin with.
fn own_slots_out(program: &Program, class: ClassId, slots: &mut Vec<Slot>) -> Result<(), AllocError>
    ensures { OnOk result (values_in slots.new.items ≡ values_in slots.old.items ++ own_cells program.now class.0) }
{
    for field in fields_of(program, class) {
        if !is_static_field(program, *field) {
            slots.push(default_of(descriptor_of_field(program, *field)))?;
        }
    }
    Ok(())
}

/// What the cells of an object of a class begin with, from those of Object down.
fn new_slots(alloc: Global, program: &Program, class: ClassId) -> Result<Vec<Slot>, AllocError>
    ensures { IfOk result (λ slots. values_in slots.items ≡ new_cells program.now class.0) }
{
    let chain = superclasses(alloc, program, class)?;
    let mut slots = Vec::new(alloc);
    let count = chain.len();
    for below in 0..count {
        own_slots_out(program, chain[count - 1 - below], &mut slots)?;
    }
    Ok(slots)
}

/// The value of a slot. One that names a text is not held.
pub fn value_of_slot(slot: Slot) -> Result<Value, AllocError>
    ensures { IfOk result (λ value. Some value ≡ plain_of slot) }
{
    held(value_in(slot))
}

/// The cells of slots. One that names a text is not held.
pub fn cells_of(alloc: Global, slots: &[Slot]) -> Result<Vec<Value>, AllocError>
    ensures { IfOk result (λ cells. values_of cells.items ≡ values_in slots.now) }
{
    let mut cells = Vec::new(alloc);
    for slot in slots {
        cells.push(value_of_slot(*slot)?)?;
    }
    Ok(cells)
}

/// Whether slots are that of a text alone.
fn is_text(slots: &[Slot]) -> bool
    ensures { result ≡ is_text slots.now }
{
    match slots {
        [Slot::Text(_)] => true,
        _ => false,
    }
}

/// What an object of slots holds. A text among other cells is not held.
fn body_of(alloc: Global, slots: &[Slot]) -> Result<Body, AllocError>
    ensures { IfOk result (λ body. cells_of body ≡ values_in slots.now) }
{
    if is_text(slots) {
        return Ok(Body::of_text(Vec::new(alloc)));
    }
    let cells = cells_of(alloc, slots)?;
    Ok(Body {
        text: None,
        values: cells,
    })
}

/// A new object of a class (JVMS 6.5 new).
pub fn new_object(alloc: Global, program: &Program, class: ClassId) -> Result<Object, AllocError>
    ensures { IfOk result (λ object. object_of object ≡ new_object program.now class.0) }
{
    let slots = new_slots(alloc, program, class)?;
    let body = body_of(alloc, &slots)?;
    Ok(Object {
        class,
        size: 0,
        body,
    })
}
