//! Objects of a class (JVMS 6.5 checkcast, instanceof).

ghost use Rattle.std.specs.Prelude.{◌≡◌};
ghost use Rattle.vx_objects.specs.Answers.{is_instance};

use vx_heap::Heap;
use vx_java::assignable;
use vx_link::Program;
use vx_space::Space;
use vx_value::{ClassId, Slot};

/// Whether a slot is an object that may stand where a class is wanted; null is none.
pub(crate) fn is_instance<S: Space>(
    program: &Program,
    heap: &Heap<S>,
    wanted: ClassId,
    slot: Slot,
) -> bool
    ensures { result ≡ is_instance program.now heap.now wanted.0 slot }
{
    match heap.class_at(slot) {
        Some(class) => assignable(program, class, wanted),
        None => false,
    }
}
