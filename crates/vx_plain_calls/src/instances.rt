//! Calls of methods of objects (JVMS 6.5 invokevirtual, invokespecial, invokeinterface), and the clones of arrays (JVMS 6.4.4).

ghost use Rattle.std.specs.Prelude.{◌≡◌, ◌&&◌, ◌+◌, ◌∷◌, IfOk, drop, length, not, unwrap_or};
ghost use Rattle.vx_java.specs.Calls.{begins_above, call_instance, carry_out, clone_array, dispatch, is_receiver, on_receiver, selected_special, selection};
ghost use Rattle.vx_java.specs.Checks.{non_null};
ghost use Rattle.vx_java.specs.Machine.{Ref, current_class, object_at, push_new};
ghost use Rattle.vx_java.specs.Named.{in_bytes};
ghost use Rattle.vx_link.specs.Assignability.{assignable};
ghost use Rattle.vx_link.specs.Hierarchy.{is_proper_superclass, superclass_of};
ghost use Rattle.vx_link.specs.Names.{member};
ghost use Rattle.vx_plain.specs.Views.{state_of, value_of, values_of};
ghost use Rattle.vx_plain_here.specs.Rows.{ComesTo, here_in};

use crate::arguments::arguments_on;
use crate::entering::carry_out;
use std::alloc::AllocError;
use vx_desc::is_init;
use vx_java::parts::{is_array, superclass_of};
use vx_java::{
    MemberReference, Mode, Selected, Sort, assignable, is_superclass, member, select,
    select_special, selected_if_concrete,
};
use vx_link::Program;
use vx_plain::{State, Value};
use vx_plain_casts::object_in;
use vx_plain_here::{Here, Made};
use vx_plain_tables::{Seen, signature_in};
use vx_value::{ClassId, MethodId};

/// A resolved call of a method of an object.
#[derive(Clone, Copy)]
pub(crate) struct Call<'a> {
    pub mode: Mode,
    pub reference: MemberReference<'a>,
    pub named: ClassId,
    pub resolved: MethodId,
}

/// Whether a value is a receiver that the call wants.
fn is_receiver(
    here: &Here<'_>,
    state: &State,
    reference: &MemberReference<'_>,
    named: ClassId,
    value: Value,
) -> bool
    ensures { let h = here_in here.now (state_of state.now) in result ≡ is_receiver h (in_bytes reference.now) named.0 (value_of value) }
{
    if reference.by_interface {
        return value.is_of(Sort::Reference);
    }
    if is_array(here.program, named) {
        return here.is_any_array(state, value);
    }
    here.is_instance(state, named, value)
}

/// Whether a class is a proper superclass of another one.
fn is_proper_superclass(program: &Program, above: ClassId, class: ClassId) -> bool
    ensures { result ≡ is_proper_superclass program.now above.0 class.0 }
{
    above.0 != class.0 && is_superclass(program, above.0 as usize, class)
}

/// Whether the search of invokespecial begins at the current class's direct superclass.
fn begins_above(here: &Here<'_>, state: &State, call: &Call<'_>) -> bool
    ensures { let h = here_in here.now (state_of state.now) in result ≡ begins_above h (in_bytes call.now.reference) call.now.named.0 }
{
    !is_init(call.reference.name)
        && is_proper_superclass(here.program, call.named, state.current_class(here.program))
}

/// The direct superclass of the current class, or class 0.
fn class_above(here: &Here<'_>, state: &State) -> ClassId
    ensures { let h = here_in here.now (state_of state.now) in result.0 ≡ unwrap_or (superclass_of h.program (current_class h.program h.state)) 0 }
{
    superclass_of(here.program, state.current_class(here.program)).unwrap_or(ClassId(0))
}

fn selected_special(here: &Here<'_>, state: &State, call: &Call<'_>) -> Selected
    ensures { let h = here_in here.now (state_of state.now) in result ≡ selected_special h (in_bytes call.now.reference) call.now.named.0 call.now.resolved.0 }
{
    if call.reference.by_interface {
        return select_special(here.program, call.named, call.resolved);
    }
    if begins_above(here, state, call) {
        return select_special(here.program, class_above(here, state), call.resolved);
    }
    selected_if_concrete(here.program, call.resolved)
}

/// The method that a receiver of a class selects.
fn selection(here: &Here<'_>, state: &State, call: &Call<'_>, receiver: ClassId) -> Selected
    ensures { let h = here_in here.now (state_of state.now) in result ≡ selection h call.now.mode (in_bytes call.now.reference) call.now.named.0 call.now.resolved.0 receiver.0 }
{
    match call.mode {
        Mode::Special => selected_special(here, state, call),
        Mode::Virtual => select(here.program, receiver, call.resolved),
        Mode::Static => select(here.program, receiver, call.resolved),
        Mode::Interface => select(here.program, receiver, call.resolved),
    }
}

/// The values of a call with its receiver first.
fn with_receiver(here: &Here<'_>, receiver: u64, values: &[Value]) -> Result<Vec<Value>, AllocError>
    ensures { IfOk result (λ r. values_of r.items ≡ Ref receiver ∷ values_of values.now) }
{
    let mut all = Vec::new(here.alloc);
    all.push(Value::Ref(receiver))?;
    all.extend_from_slice(values)?;
    Ok(all)
}

/// The method of a receiver is carried out.
fn carry_out_of(
    here: &Here<'_>,
    state: &mut State,
    call: &Call<'_>,
    values: &[Value],
    receiver: u64,
) -> Made
    ensures { let h = here_in here.now (state_of state.old) in IfOk result (ComesTo (carry_out h (Ref receiver ∷ values_of values.now) (drop (length values.now + 1) h.state.top.operands) (selection h call.now.mode (in_bytes call.now.reference) call.now.named.0 call.now.resolved.0 (object_at h.state receiver).class)) h.state (state_of state.new)) }
{
    let selected = selection(here, state, call, state.class_of(receiver));
    let all = with_receiver(here, receiver, values)?;
    carry_out(here, state, &all, values.len() + 1, selected)
}

/// Whether the call is of an interface that its receiver doesn't implement.
fn is_misplaced(here: &Here<'_>, state: &State, call: &Call<'_>, receiver: u64) -> bool
    ensures { let h = here_in here.now (state_of state.now) in result ≡ ((in_bytes call.now.reference).by_interface && not (assignable h.program (object_at h.state receiver).class call.now.named.0)) }
{
    if call.reference.by_interface {
        !assignable(here.program, state.class_of(receiver), call.named)
    } else {
        false
    }
}

/// The receiver of an interface method implements the interface.
fn dispatch(
    here: &Here<'_>,
    state: &mut State,
    call: &Call<'_>,
    values: &[Value],
    receiver: u64,
) -> Made
    ensures { let h = here_in here.now (state_of state.old) in IfOk result (ComesTo (dispatch h call.now.mode (in_bytes call.now.reference) call.now.named.0 call.now.resolved.0 (values_of values.now) receiver (drop (length values.now + 1) h.state.top.operands)) h.state (state_of state.new)) }
{
    if is_misplaced(here, state, call, receiver) {
        here.raise(state, b"java/lang/IncompatibleClassChangeError")
    } else {
        carry_out_of(here, state, call, values, receiver)
    }
}

/// A call of a receiver that the call wants; null raises.
fn call_of(
    here: &Here<'_>,
    state: &mut State,
    call: &Call<'_>,
    values: &[Value],
    receiver: Value,
) -> Made
    ensures { let h = here_in here.now (state_of state.old) in IfOk result (ComesTo (non_null h (value_of receiver) (λ r. dispatch h call.now.mode (in_bytes call.now.reference) call.now.named.0 call.now.resolved.0 (values_of values.now) r (drop (length values.now + 1) h.state.top.operands))) h.state (state_of state.new)) }
{
    match object_in(receiver) {
        Some(receiver) => dispatch(here, state, call, values, receiver),
        None => here.raise(state, b"java/lang/NullPointerException"),
    }
}

/// A call of a value.
fn call_by(
    here: &Here<'_>,
    state: &mut State,
    call: &Call<'_>,
    values: &[Value],
    receiver: Value,
) -> Made
    ensures { let h = here_in here.now (state_of state.old) in IfOk result (ComesTo (on_receiver h (in_bytes call.now.reference) call.now.named.0 (value_of receiver ∷ drop (length values.now + 1) h.state.top.operands) (dispatch h call.now.mode (in_bytes call.now.reference) call.now.named.0 call.now.resolved.0 (values_of values.now))) h.state (state_of state.new)) }
{
    if is_receiver(here, state, &call.reference, call.named, receiver) {
        call_of(here, state, call, values, receiver)
    } else {
        here.illegal(state)
    }
}

/// A call with its arguments.
fn call_with(here: &Here<'_>, state: &mut State, call: &Call<'_>, values: &[Value]) -> Made
    ensures { let h = here_in here.now (state_of state.old) in IfOk result (ComesTo (on_receiver h (in_bytes call.now.reference) call.now.named.0 (drop (length values.now) h.state.top.operands) (dispatch h call.now.mode (in_bytes call.now.reference) call.now.named.0 call.now.resolved.0 (values_of values.now))) h.state (state_of state.new)) }
{
    match state.operand(values.len()) {
        Some(receiver) => call_by(here, state, call, values, receiver),
        None => here.illegal(state),
    }
}

/// A call of a method of an object.
pub(crate) fn call_instance(
    seen: &Seen<'_>,
    state: &mut State,
    mode: Mode,
    index: u16,
    named: ClassId,
    resolved: MethodId,
) -> Made
    ensures { let h = here_in seen.now.here (state_of state.old) in IfOk result (ComesTo (call_instance h mode (member h.pool index) named.0 resolved.0) h.state (state_of state.new)) }
{
    let signature = signature_in(seen.here.alloc, seen.here.pool, index)?;
    let found = arguments_on(seen.here.alloc, state, signature.arguments.as_slice())?;
    match found {
        Some(values) => {
            let reference = member(seen.here.pool, index);
            let call = Call {
                mode,
                reference,
                named,
                resolved,
            };
            call_with(&seen.here, state, &call, &values)
        }
        None => seen.here.illegal(state),
    }
}

// ---- the clone of an array

/// Puts a copy of an array in its place.
fn push_copy(here: &Here<'_>, state: &mut State, array: u64) -> Made
    ensures { let h = here_in here.now (state_of state.old) in IfOk result (ComesTo (push_new h (object_at h.state array) (drop 1 h.state.top.operands)) h.state (state_of state.new)) }
{
    let copied = state.copied(here.alloc, array)?;
    here.push_new(state, 1, copied)
}

/// The clone of what is an array; null raises.
fn clone_of(here: &Here<'_>, state: &mut State, array: Value) -> Made
    ensures { let h = here_in here.now (state_of state.old) in IfOk result (ComesTo (non_null h (value_of array) (λ r. push_new h (object_at h.state r) (drop 1 h.state.top.operands))) h.state (state_of state.new)) }
{
    match object_in(array) {
        Some(array) => push_copy(here, state, array),
        None => here.raise(state, b"java/lang/NullPointerException"),
    }
}

/// The clone of a value.
fn clone_by(
    here: &Here<'_>,
    state: &mut State,
    reference: &MemberReference<'_>,
    named: ClassId,
    array: Value,
) -> Made
    ensures { let h = here_in here.now (state_of state.old) in IfOk result (ComesTo (on_receiver h (in_bytes reference.now) named.0 (value_of array ∷ drop 1 h.state.top.operands) (λ r rest. push_new h (object_at h.state r) rest)) h.state (state_of state.new)) }
{
    if is_receiver(here, state, reference, named, array) {
        clone_of(here, state, array)
    } else {
        here.illegal(state)
    }
}

/// The clone of the array on top copies it in one attempt.
fn clone_top(
    here: &Here<'_>,
    state: &mut State,
    reference: &MemberReference<'_>,
    named: ClassId,
) -> Made
    ensures { let h = here_in here.now (state_of state.old) in IfOk result (ComesTo (on_receiver h (in_bytes reference.now) named.0 h.state.top.operands (λ r rest. push_new h (object_at h.state r) rest)) h.state (state_of state.new)) }
{
    match state.operand(0) {
        Some(array) => clone_by(here, state, reference, named, array),
        None => here.illegal(state),
    }
}

/// The clone of an array: a static call of it is of the wrong kind.
pub(crate) fn clone_array(
    here: &Here<'_>,
    state: &mut State,
    mode: Mode,
    reference: &MemberReference<'_>,
    named: ClassId,
) -> Made
    ensures { let h = here_in here.now (state_of state.old) in IfOk result (ComesTo (clone_array h mode (in_bytes reference.now) named.0) h.state (state_of state.new)) }
{
    match mode {
        Mode::Static => here.raise(state, b"java/lang/IncompatibleClassChangeError"),
        Mode::Virtual => clone_top(here, state, reference, named),
        Mode::Special => clone_top(here, state, reference, named),
        Mode::Interface => clone_top(here, state, reference, named),
    }
}
