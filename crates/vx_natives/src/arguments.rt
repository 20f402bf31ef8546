//! The values of a call of a native method among the operands: its arguments, each of its type's sort and class, and its receiver under
//! them (JVMS 2.6.2, 4.3.3).

ghost use Rattle.std.specs.Prelude.{◌≡◌};
ghost use Rattle.vx_natives.specs.Arguments.{argument, is_instance, is_wanted, receiver};
ghost use Rattle.vx_natives.specs.Calls.{call_given};

use crate::call::Call;
use vx_desc::JavaType;
use vx_families::{fits, narrowed};
use vx_heap::Heap;
use vx_java::assignable;
use vx_link::Program;
use vx_space::Space;
use vx_value::{ClassId, Slot};

/// Whether a slot is null, or an object that may stand where a class is wanted.
fn is_instance<S: Space>(program: &Program, heap: &Heap<S>, wanted: ClassId, slot: Slot) -> bool
    ensures { result ≡ is_instance program.now heap.now wanted.0 slot }
{
    match slot {
        Slot::Null => true,
        Slot::Ref(_) => match heap.class_at(slot) {
            Some(class) => assignable(program, class, wanted),
            None => false,
        },
        _ => false,
    }
}

/// Whether a slot is of a class, where one is wanted.
fn is_wanted<S: Space>(
    program: &Program,
    heap: &Heap<S>,
    wanted: Option<ClassId>,
    slot: Slot,
) -> bool
    ensures { result ≡ is_wanted program.now heap.now wanted slot }
{
    match wanted {
        Some(class) => is_instance(program, heap, class, slot),
        None => true,
    }
}

/// An argument of a type, as a store to a field of the type would put it there; `None` where it isn't of the type's sort, or not of the
/// class that is wanted.
pub(crate) fn argument<S: Space>(
    program: &Program,
    heap: &Heap<S>,
    wanted: Option<ClassId>,
    java_type: JavaType,
    slot: Slot,
) -> Option<Slot>
    ensures { result ≡ argument program.now heap.now wanted java_type slot }
{
    if fits(java_type, slot) && is_wanted(program, heap, wanted, slot) {
        Some(narrowed(java_type, slot))
    } else {
        None
    }
}

/// The call with its receiver alone, which has to be of the method's class.
pub(crate) fn received<S: Space>(
    program: &Program,
    heap: &Heap<S>,
    class: ClassId,
    slot: Slot,
) -> Call
    ensures { result ≡ call_given (receiver program.now heap.now class.0 slot) }
{
    if is_instance(program, heap, class, slot) {
        Call::One(slot)
    } else {
        Call::Illegal
    }
}
