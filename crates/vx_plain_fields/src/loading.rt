//! The values of fields (JVMS 6.5 getstatic, getfield).

ghost use Rattle.std.specs.Prelude.{◌≡◌, ◌&&◌, ◌∷◌, IfOk, drop};
ghost use Rattle.vx_java.specs.Checks.{is_instance_of, non_null, width_of_type};
ghost use Rattle.vx_java.specs.Fields.{declaring, static_value};
ghost use Rattle.vx_java.specs.Initialisation.{when_initialised};
ghost use Rattle.vx_java.specs.Machine.{Top, cell_at, go, has_room, illegal, when};
ghost use Rattle.vx_link.specs.Parts.{field_at};
ghost use Rattle.vx_list.specs.Places.{item_or};
ghost use Rattle.vx_plain.specs.Views.{state_of, value_of};
ghost use Rattle.vx_plain_fields.specs.Fields.{found_of, used};
ghost use Rattle.vx_plain_fields.specs.declared.fields.Use.TheVariants.{GetField, GetStatic};
ghost use Rattle.vx_plain_here.specs.Rows.{ComesTo, here_in};

use crate::fields::Found;
use vx_java::parts::{cell_of, class_of_field};
use vx_plain::{State, Value};
use vx_plain_casts::object_in;
use vx_plain_here::Made;
use vx_plain_ready::ready;
use vx_plain_tables::Seen;
use vx_references::fields::width_of;
use vx_value::FieldId;

/// Puts the value of a static field on the operands.
fn load_static(seen: &Seen<'_>, state: &mut State, field: FieldId) -> Made
    ensures { let s = state_of state.old in IfOk result (ComesTo (go (here_in seen.now.here s) (item_or s.statics field.0 Top ∷ s.top.operands)) s (state_of state.new)) }
{
    let value = state.static_value(field);
    seen.here.go_with(state, 0, value)
}

/// The value of a static field, once its class is ready.
fn get_ready(seen: &Seen<'_>, state: &mut State, found: Found) -> Made
    ensures { let s = state_of state.old in IfOk result (ComesTo (when_initialised (here_in seen.now.here s) (declaring (here_in seen.now.here s) (found_of found)) (λ g. go g (static_value g.state (found_of found) ∷ g.state.top.operands))) s (state_of state.new)) }
{
    let class = class_of_field(seen.here.program, found.field);
    let made = ready(&seen.here, state, class)?;
    match made {
        Some(outcome) => Ok(outcome),
        None => load_static(seen, state, found.field),
    }
}

/// getstatic: room for the value stands before initialisation.
pub(crate) fn get_static(seen: &Seen<'_>, state: &mut State, found: Found) -> Made
    ensures { let s = state_of state.old in IfOk result (ComesTo (used (here_in seen.now.here s) GetStatic (found_of found)) s (state_of state.new)) }
{
    if seen
        .here
        .has_room(state, width_of(found.field_type) as usize, 0)
    {
        get_ready(seen, state, found)
    } else {
        seen.here.illegal(state)
    }
}

/// Puts the value of a cell in the place of its object.
fn load_cell(seen: &Seen<'_>, state: &mut State, object: u64, cell: usize) -> Made
    ensures { let s = state_of state.old in IfOk result (ComesTo (go (here_in seen.now.here s) (cell_at s object cell ∷ drop 1 s.top.operands)) s (state_of state.new)) }
{
    let value = state.cell(object, cell)?;
    seen.here.go_with(state, 1, value)
}

/// The value of a field of an object; null raises.
fn get_from(seen: &Seen<'_>, state: &mut State, cell: usize, object: Value) -> Made
    ensures { let s = state_of state.old in IfOk result (ComesTo (non_null (here_in seen.now.here s) (value_of object) (λ r. go (here_in seen.now.here s) (cell_at s r cell ∷ drop 1 s.top.operands))) s (state_of state.new)) }
{
    match object_in(object) {
        Some(object) => load_cell(seen, state, object, cell),
        None => seen.here.raise(state, b"java/lang/NullPointerException"),
    }
}

/// Whether a value is an object of the class that is named, in whose place the value of the field has room.
fn may_get(seen: &Seen<'_>, state: &State, found: Found, object: Value) -> bool
    ensures { let h = here_in seen.now.here (state_of state.now) in result ≡ (is_instance_of h found.named.0 (value_of object) && has_room h (width_of_type found.field_type) (drop 1 h.state.top.operands)) }
{
    seen.here.is_instance(state, found.named, object)
        && seen
            .here
            .has_room(state, width_of(found.field_type) as usize, 1)
}

/// getfield of what stands on top.
fn get_of(seen: &Seen<'_>, state: &mut State, found: Found, object: Value) -> Made
    ensures { let h = here_in seen.now.here (state_of state.old) in IfOk result (ComesTo (when (is_instance_of h found.named.0 (value_of object) && has_room h (width_of_type found.field_type) (drop 1 h.state.top.operands)) (non_null h (value_of object) (λ r. go h (cell_at h.state r (field_at h.program found.field.0).cell ∷ drop 1 h.state.top.operands))) (illegal h)) h.state (state_of state.new)) }
{
    if may_get(seen, state, found, object) {
        get_from(
            seen,
            state,
            cell_of(seen.here.program, found.field) as usize,
            object,
        )
    } else {
        seen.here.illegal(state)
    }
}

/// getfield.
pub(crate) fn get_field(seen: &Seen<'_>, state: &mut State, found: Found) -> Made
    ensures { let s = state_of state.old in IfOk result (ComesTo (used (here_in seen.now.here s) GetField (found_of found)) s (state_of state.new)) }
{
    match state.operand(0) {
        Some(object) => get_of(seen, state, found, object),
        None => seen.here.illegal(state),
    }
}
