//! Calls by what their references come to (JVMS 6.5 invokevirtual, invokespecial, invokestatic, invokeinterface, Java SE 8).

ghost use Rattle.std.specs.Prelude.{◌≡◌, IfOk};
ghost use Rattle.vx_java.specs.Calls.{clone_array, invoke, member_text};
ghost use Rattle.vx_java.specs.Machine.{unsupported};
ghost use Rattle.vx_java.specs.Operation.{class_word, method_word};
ghost use Rattle.vx_link.specs.Names.{member};
ghost use Rattle.vx_plain.specs.Views.{state_of};
ghost use Rattle.vx_plain_here.specs.Rows.{ComesTo, here_in};
ghost use Rattle.vx_references.specs.Calls.{by_reference, call_found};

use crate::instances::{call_instance, clone_array};
use crate::statics::call_static;
use vx_java::{Mode, member};
use vx_plain::State;
use vx_plain_here::{Made, unsupported_at};
use vx_plain_tables::Seen;
use vx_references::{MethodReference, member_text, method_reference};
use vx_value::{ClassId, MethodId};

/// The numbers of the words for what ends a run as unsupported.
const CLASS: u8 = 6;

const METHOD: u8 = 8;

/// The class that is named isn't there.
fn no_class(seen: &Seen<'_>, state: &State, index: u16) -> Made
    ensures { let h = here_in seen.now.here (state_of state.now) in IfOk result (ComesTo (unsupported h class_word (member h.pool index).class) h.state h.state) }
{
    let named = member(seen.here.pool, index);
    seen.here.unsupported(state, CLASS, named.class)
}

/// The class has no such method.
fn no_method(seen: &Seen<'_>, state: &State, index: u16) -> Made
    ensures { let h = here_in seen.now.here (state_of state.now) in IfOk result (ComesTo (unsupported h method_word (member_text (member h.pool index))) h.state h.state) }
{
    let named = member(seen.here.pool, index);
    let what = member_text(seen.here.alloc, &named)?;
    unsupported_at(seen.here.alloc, seen.here.program, state, METHOD, what)
}

/// The call of a method that the name is resolved to.
fn call_found(
    seen: &Seen<'_>,
    state: &mut State,
    mode: Mode,
    index: u16,
    named: ClassId,
    resolved: MethodId,
) -> Made
    ensures { let h = here_in seen.now.here (state_of state.old) in IfOk result (ComesTo (call_found h mode (member h.pool index) named.0 resolved.0) h.state (state_of state.new)) }
{
    match mode {
        Mode::Static => call_static(seen, state, index, resolved),
        Mode::Virtual => call_instance(seen, state, mode, index, named, resolved),
        Mode::Special => call_instance(seen, state, mode, index, named, resolved),
        Mode::Interface => call_instance(seen, state, mode, index, named, resolved),
    }
}

/// The clone of an array.
fn call_clone(seen: &Seen<'_>, state: &mut State, mode: Mode, index: u16, named: ClassId) -> Made
    ensures { let h = here_in seen.now.here (state_of state.old) in IfOk result (ComesTo (clone_array h mode (member h.pool index) named.0) h.state (state_of state.new)) }
{
    let reference = member(seen.here.pool, index);
    clone_array(&seen.here, state, mode, &reference, named)
}

/// The row by what the reference comes to.
fn by_reference(
    seen: &Seen<'_>,
    state: &mut State,
    mode: Mode,
    index: u16,
    reference: MethodReference,
) -> Made
    ensures { let h = here_in seen.now.here (state_of state.old) in IfOk result (ComesTo (by_reference h mode (member h.pool index) reference) h.state (state_of state.new)) }
{
    match reference {
        MethodReference::Found { named, resolved } => {
            call_found(seen, state, mode, index, named, resolved)
        }
        MethodReference::Clone(named) => call_clone(seen, state, mode, index, named),
        MethodReference::NoClass => no_class(seen, state, index),
        MethodReference::NoMethod => no_method(seen, state, index),
        MethodReference::WrongKind => {
            seen.here
                .raise(state, b"java/lang/IncompatibleClassChangeError")
        }
    }
}

/// invokevirtual, invokespecial, invokestatic, invokeinterface.
pub fn invoke(seen: &Seen<'_>, state: &mut State, mode: Mode, index: u16) -> Made
    ensures { let h = here_in seen.now.here (state_of state.old) in IfOk result (ComesTo (invoke h mode index) h.state (state_of state.new)) }
{
    let owner = seen.owner(index);
    let reference = method_reference(seen.here.program, seen.here.pool, index, owner, mode);
    by_reference(seen, state, mode, index, reference)
}
