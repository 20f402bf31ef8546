//! The cells with which an object of a class begins (JVMS 2.3, 2.4).

ghost use Rattle.std.specs.Prelude.{◌++◌, IfOk, List, OnOk};
ghost use Rattle.vx_heap.specs.Defaults.{AreSlotsOf, IsSlotOf};
ghost use Rattle.vx_java.specs.FirstObjects.{field_default, new_cells, own_cells};
ghost use Rattle.vx_java.specs.Machine.{Value};
ghost use Rattle.vx_link.specs.Parts.{field_at};

use std::alloc::{AllocError, Global};
use vx_initial_heap::default_of;
use vx_java::parts::{descriptor_of_field, fields_of};
use vx_java::superclasses;
use vx_link::Program;
use vx_references::fields::is_static_field;
use vx_value::{ClassId, FieldId, Slot};

/// What a field begins with, where the empty text has this number.
fn started(program: &Program, field: FieldId, empty: u64) -> Slot
    ensures { IsSlotOf empty result (field_default (field_at program.now field.0)) }
{
    match default_of(descriptor_of_field(program, field)) {
        Slot::Text(_) => Slot::Text(empty),
        slot => slot,
    }
}

/// Appends what the instance fields of a class itself begin with, where the empty text has this number.
fn own_slots_out(
    program: &Program,
    class: ClassId,
    empty: u64,
    slots: &mut Vec<Slot>,
) -> Result<(), AllocError>
    ensures { OnOk result ((values : List Value) → AreSlotsOf empty slots.old.items values → AreSlotsOf empty slots.new.items (values ++ own_cells program.now class.0)) }
{
    for field in fields_of(program, class) {
        if !is_static_field(program, *field) {
            slots.push(started(program, *field, empty))?;
        }
    }
    Ok(())
}

/// What the cells of an object of a class begin with, from those of Object down, where the empty text has this number.
pub fn new_slots(
    alloc: Global,
    program: &Program,
    class: ClassId,
    empty: u64,
) -> Result<Vec<Slot>, AllocError>
    ensures { IfOk result (λ slots. AreSlotsOf empty slots.items (new_cells program.now class.0)) }
{
    let chain = superclasses(alloc, program, class)?;
    let mut slots = Vec::new(alloc);
    let count = chain.len();
    for below in 0..count {
        own_slots_out(program, chain[count - 1 - below], empty, &mut slots)?;
    }
    Ok(slots)
}
