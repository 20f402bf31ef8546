//! New objects (JVMS 6.5 new).

ghost use Rattle.std.specs.Prelude.{IfOk};
ghost use Rattle.vx_java.specs.FirstObjects.{new_object};
ghost use Rattle.vx_java.specs.Initialisation.{when_initialised};
ghost use Rattle.vx_java.specs.Machine.{has_room, illegal, push_new, when};
ghost use Rattle.vx_java.specs.Objects.{new_instance, new_of_class};
ghost use Rattle.vx_plain.specs.Views.{state_of};
ghost use Rattle.vx_plain_here.specs.Rows.{ComesTo, here_in};

use vx_java::parts::is_without_objects;
use vx_link::class_name;
use vx_plain::State;
use vx_plain_here::Made;
use vx_plain_ready::ready;
use vx_plain_tables::{Seen, new_object};
use vx_value::ClassId;

/// The number of the word for a class that ends a run as unsupported.
const CLASS: u8 = 6;

/// A new object is put on the operands.
fn put_object(seen: &Seen<'_>, state: &mut State, class: ClassId) -> Made
    ensures { let h = here_in seen.now.here (state_of state.old) in IfOk result (ComesTo (push_new h (new_object h.program class.0) h.state.top.operands) h.state (state_of state.new)) }
{
    let object = new_object(seen.here.alloc, seen.here.program, class)?;
    seen.here.push_new(state, 0, object)
}

/// A new object, once its class is ready.
fn new_ready(seen: &Seen<'_>, state: &mut State, class: ClassId) -> Made
    ensures { let h = here_in seen.now.here (state_of state.old) in IfOk result (ComesTo (when_initialised h class.0 (λ g. push_new g (new_object g.program class.0) g.state.top.operands)) h.state (state_of state.new)) }
{
    let made = ready(&seen.here, state, class)?;
    match made {
        Some(outcome) => Ok(outcome),
        None => put_object(seen, state, class),
    }
}

/// A new object, where it has room.
fn new_in_room(seen: &Seen<'_>, state: &mut State, class: ClassId) -> Made
    ensures { let h = here_in seen.now.here (state_of state.old) in IfOk result (ComesTo (when (has_room h 1 h.state.top.operands) (when_initialised h class.0 (λ g. push_new g (new_object g.program class.0) g.state.top.operands)) (illegal h)) h.state (state_of state.new)) }
{
    if seen.here.has_room(state, 1, 0) {
        new_ready(seen, state, class)
    } else {
        seen.here.illegal(state)
    }
}

/// new, of a class that is there.
fn new_of_class(seen: &Seen<'_>, state: &mut State, class: ClassId) -> Made
    ensures { let h = here_in seen.now.here (state_of state.old) in IfOk result (ComesTo (new_of_class h class.0) h.state (state_of state.new)) }
{
    if is_without_objects(seen.here.program, class) {
        seen.here.raise(state, b"java/lang/InstantiationError")
    } else {
        new_in_room(seen, state, class)
    }
}

/// new.
pub fn new_instance(seen: &Seen<'_>, state: &mut State, index: u16) -> Made
    ensures { let h = here_in seen.now.here (state_of state.old) in IfOk result (ComesTo (new_instance h index) h.state (state_of state.new)) }
{
    match seen.class_named(index) {
        Some(class) => new_of_class(seen, state, class),
        None => seen
            .here
            .unsupported(state, CLASS, class_name(seen.here.pool, index)),
    }
}
