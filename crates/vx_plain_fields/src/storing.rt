//! Stores to fields (JVMS 6.5 putstatic, putfield).

ghost use Rattle.std.specs.Prelude.{◌≡◌, ◌&&◌, IfOk, Some, drop, slice_get};
ghost use Rattle.vx_java.specs.Checks.{fits_type, is_instance_of, non_null};
ghost use Rattle.vx_java.specs.Fields.{declaring, with_written};
ghost use Rattle.vx_java.specs.FirstObjects.{narrowed_value};
ghost use Rattle.vx_java.specs.Initialisation.{when_initialised};
ghost use Rattle.vx_java.specs.Machine.{Go, illegal, past, when, with_cell, with_static};
ghost use Rattle.vx_link.specs.Parts.{field_at};
ghost use Rattle.vx_plain.specs.Views.{state_of, value_of};
ghost use Rattle.vx_plain_fields.specs.Fields.{found_of, keeps, used};
ghost use Rattle.vx_plain_fields.specs.declared.fields.Use.TheVariants.{PutField, PutStatic};
ghost use Rattle.vx_plain_here.specs.Rows.{ComesTo, here_in};

use crate::fields::Found;
use vx_desc::{JavaType, is_clinit};
use vx_java::parts::{cell_of, class_of_field, class_of_method, is_option_field, name_of_method};
use vx_link::Program;
use vx_plain::{State, Value};
use vx_plain_casts::object_in;
use vx_plain_here::{Made, fits, narrowed};
use vx_plain_ready::ready;
use vx_plain_tables::Seen;
use vx_value::{FieldId, MethodId};

// ---- static fields

/// Whether a field keeps its value where a method writes it: it is an option's, and the method is the `<clinit>` of its own class.
fn keeps_option(program: &Program, method: MethodId, field: FieldId) -> bool
    ensures { result ≡ keeps program.now method.0 field.0 }
{
    is_option_field(program, field)
        && (is_clinit(name_of_method(program, method))
            && class_of_method(program, method).0 == class_of_field(program, field).0)
}

/// Whether a field keeps its value where the method on top writes it.
#[tactic(auto, unfolding(vx_plain::specs::Views::state_of))]
fn keeps(program: &Program, state: &State, field: FieldId) -> bool
    ensures { result ≡ keeps program.now (state_of state.now).top.method field.0 }
{
    keeps_option(program, state.top.method, field)
}

/// Writes a static field, and goes on.
fn store(seen: &Seen<'_>, state: &mut State, found: Found, value: Value) -> Made
    ensures { let s = state_of state.old in IfOk result (ComesTo (Go (past (here_in seen.now.here s) (with_static s found.field.0 (narrowed_value found.field_type (value_of value))) (drop 1 s.top.operands))) s (state_of state.new)) }
{
    let kept = narrowed(found.field_type, value);
    state.write_static(found.field, kept);
    seen.here.go(state, 1)
}

/// Writes a static field, unless it keeps its value, and goes on.
fn store_static(seen: &Seen<'_>, state: &mut State, found: Found, value: Value) -> Made
    ensures { let h = here_in seen.now.here (state_of state.old) in IfOk result (ComesTo (Go (past h (with_written h (found_of found) (value_of value)) (drop 1 h.state.top.operands))) h.state (state_of state.new)) }
{
    if keeps(seen.here.program, state, found.field) {
        seen.here.go(state, 1)
    } else {
        store(seen, state, found, value)
    }
}

/// Writes a static field, once its class is ready.
fn put_ready(seen: &Seen<'_>, state: &mut State, found: Found, value: Value) -> Made
    ensures { let h = here_in seen.now.here (state_of state.old) in IfOk result (ComesTo (when_initialised h (declaring h (found_of found)) (λ g. Go (past g (with_written g (found_of found) (value_of value)) (drop 1 h.state.top.operands)))) h.state (state_of state.new)) }
{
    let class = class_of_field(seen.here.program, found.field);
    let made = ready(&seen.here, state, class)?;
    match made {
        Some(outcome) => Ok(outcome),
        None => store_static(seen, state, found, value),
    }
}

/// putstatic of what stands on top.
fn put_value(seen: &Seen<'_>, state: &mut State, found: Found, value: Value) -> Made
    ensures { let h = here_in seen.now.here (state_of state.old) in IfOk result (ComesTo (when (fits_type found.field_type (value_of value)) (when_initialised h (declaring h (found_of found)) (λ g. Go (past g (with_written g (found_of found) (value_of value)) (drop 1 h.state.top.operands)))) (illegal h)) h.state (state_of state.new)) }
{
    if fits(found.field_type, value) {
        put_ready(seen, state, found, value)
    } else {
        seen.here.illegal(state)
    }
}

/// putstatic. An option keeps its value where the `<clinit>` of its own class writes it.
pub(crate) fn put_static(seen: &Seen<'_>, state: &mut State, found: Found) -> Made
    ensures { let s = state_of state.old in IfOk result (ComesTo (used (here_in seen.now.here s) PutStatic (found_of found)) s (state_of state.new)) }
{
    match state.operand(0) {
        Some(value) => put_value(seen, state, found, value),
        None => seen.here.illegal(state),
    }
}

// ---- fields of objects

/// Writes a cell of an object, and goes on.
fn store_cell(
    seen: &Seen<'_>,
    state: &mut State,
    object: u64,
    cell: usize,
    field_type: JavaType,
    value: Value,
) -> Made
    ensures { let s = state_of state.old in IfOk result (ComesTo (Go (past (here_in seen.now.here s) (with_cell s object cell (narrowed_value field_type (value_of value))) (drop 2 s.top.operands))) s (state_of state.new)) }
{
    let kept = narrowed(field_type, value);
    state.write_cell(object, cell, kept)?;
    seen.here.go(state, 2)
}

/// Writes a field of an object; null raises.
fn put_in(
    seen: &Seen<'_>,
    state: &mut State,
    cell: usize,
    field_type: JavaType,
    value: Value,
    object: Value,
) -> Made
    ensures { let s = state_of state.old in IfOk result (ComesTo (non_null (here_in seen.now.here s) (value_of object) (λ r. Go (past (here_in seen.now.here s) (with_cell s r cell (narrowed_value field_type (value_of value))) (drop 2 s.top.operands)))) s (state_of state.new)) }
{
    match object_in(object) {
        Some(object) => store_cell(seen, state, object, cell, field_type, value),
        None => seen.here.raise(state, b"java/lang/NullPointerException"),
    }
}

/// Whether a value fits, and stands above an object of the class that is named.
fn may_put(seen: &Seen<'_>, state: &State, found: Found, value: Value, object: Value) -> bool
    ensures { let h = here_in seen.now.here (state_of state.now) in result ≡ (fits_type found.field_type (value_of value) && is_instance_of h found.named.0 (value_of object)) }
{
    fits(found.field_type, value) && seen.here.is_instance(state, found.named, object)
}

/// putfield of the two values on top.
fn put_both(seen: &Seen<'_>, state: &mut State, found: Found, value: Value, object: Value) -> Made
    ensures { let h = here_in seen.now.here (state_of state.old) in IfOk result (ComesTo (when (fits_type found.field_type (value_of value) && is_instance_of h found.named.0 (value_of object)) (non_null h (value_of object) (λ r. Go (past h (with_cell h.state r (field_at h.program found.field.0).cell (narrowed_value found.field_type (value_of value))) (drop 2 h.state.top.operands)))) (illegal h)) h.state (state_of state.new)) }
{
    if may_put(seen, state, found, value, object) {
        put_in(
            seen,
            state,
            cell_of(seen.here.program, found.field) as usize,
            found.field_type,
            value,
            object,
        )
    } else {
        seen.here.illegal(state)
    }
}

/// putfield, where the value on top is known.
fn put_over(seen: &Seen<'_>, state: &mut State, found: Found, value: Value) -> Made
    requires { Some (value_of value) ≡ slice_get (state_of state.old).top.operands 0 }
    ensures { let s = state_of state.old in IfOk result (ComesTo (used (here_in seen.now.here s) PutField (found_of found)) s (state_of state.new)) }
{
    match state.operand(1) {
        Some(object) => put_both(seen, state, found, value, object),
        None => seen.here.illegal(state),
    }
}

/// putfield.
pub(crate) fn put_field(seen: &Seen<'_>, state: &mut State, found: Found) -> Made
    ensures { let s = state_of state.old in IfOk result (ComesTo (used (here_in seen.now.here s) PutField (found_of found)) s (state_of state.new)) }
{
    match state.operand(0) {
        Some(value) => put_over(seen, state, found, value),
        None => seen.here.illegal(state),
    }
}
