//! Objects of exceptions, with their messages and causes (JVMS 2.10).

ghost use Rattle.std.specs.Prelude.{◌≡◌, ◌<◌, Bool, IfOk, List, Some, length, true};
ghost use Rattle.vx_cond.specs.Cond.{IsCond};
ghost use Rattle.vx_group_states.specs.Sites.{IsSomewhere};
ghost use Rattle.vx_group_states.specs.Stands.{IsMessage, message_of};
ghost use Rattle.vx_heap.specs.Changing.{IsValueHeld};
ghost use Rattle.vx_heap.specs.Heap.{IsHeap, is_held};
ghost use Rattle.vx_java.specs.Ids.{HasClassNumbers};
ghost use Rattle.vx_space.specs.Sets.{Extends, IsKnown};
ghost use Rattle.vx_throw.specs.Making.{IsExceptionMade, IsThrowableMade, MakesMessage};
ghost use Rattle.vx_value.specs.Slot.{slot_cmp};
ghost use Rattle.vx_value.specs.Texts.{text_at};

use std::alloc::{AllocError, Global};
use vx_cells::write_inside;
use vx_cond::Cond;
use vx_heap::Heap;
use vx_java::core_class;
use vx_link::Program;
use vx_space::{Space, SpaceFault};
use vx_value::{ClassId, Slot};

/// A copy of a text of the heap, which the heap can't lend while it makes an object.
fn copy_of<S: Space>(alloc: Global, heap: &Heap<S>, text: u64) -> Result<Vec<u16>, AllocError>
    requires { text < length heap.now.texts }
    ensures { IfOk result (λ r. r.items ≡ text_at heap.now.texts text) }
{
    let mut units = Vec::new(alloc);
    units.extend_from_slice(heap.texts().text(text))?;
    Ok(units)
}

/// A string with a text of the heap, in the configurations of a path. After want of memory the heap is given up.
fn text_object<S: Space>(
    alloc: Global,
    program: &Program,
    heap: &mut Heap<S>,
    text: u64,
    path: S::Id,
) -> Result<Slot, SpaceFault>
    requires classes { HasClassNumbers program.now }
    requires text { text < length heap.old.texts }
    ensures { IfOk result (MakesMessage program.now heap.old path (Some (text_at heap.old.texts text)) heap.new) }
{
    let class = core_class(program, b"java/lang/String");
    let units = copy_of(alloc, heap, text)?;
    let object = heap.alloc_text(alloc, class, units.as_slice(), path)?;
    Ok(Slot::Ref(object))
}

/// The message of an exception: null, or a string with the text of this number. After want of memory the heap is given up.
fn message_object<S: Space>(
    alloc: Global,
    program: &Program,
    heap: &mut Heap<S>,
    message: Option<u64>,
    path: S::Id,
) -> Result<Slot, SpaceFault>
    requires classes { HasClassNumbers program.now }
    requires message { IsMessage heap.old message }
    ensures { IfOk result (MakesMessage program.now heap.old path (message_of heap.old message) heap.new) }
{
    match message {
        Some(text) => {
            let string = text_object(alloc, program, heap, text, path)?;
            Ok(string)
        }
        None => Ok(Slot::Null),
    }
}

/// Makes a throwable of a class in the configurations of a path, of which there is one at least, with this message and this cause. After
/// want of memory the heap is given up.
pub(crate) fn throwable<S: Space>(
    alloc: Global,
    program: &Program,
    space: &mut S,
    heap: &mut Heap<S>,
    class: ClassId,
    message: Slot,
    cause: &Cond<Slot, S>,
    path: S::Id,
) -> Result<u64, SpaceFault>
    requires heap { IsHeap (S.sets space.old) heap.old }
    requires known { IsKnown (S.sets space.old) path }
    requires somewhere { IsSomewhere (S.sets space.old) path }
    requires message { (c : List Bool) → (S.sets space.old).test path c ≡ true → is_held (S.sets space.old) heap.old c message ≡ true }
    requires cause { IsCond slot_cmp (S.sets space.old) cause.now }
    requires scope { cause.now.scope ≡ path }
    requires held { IsValueHeld (S.sets space.old) heap.old cause.now }
    ensures extends { Extends (S.sets space.old) (S.sets space.new) }
    ensures made { IfOk result (IsThrowableMade program.now (S.sets space.old) (S.sets space.new) heap.old path class.0 message cause.now heap.new) }
{
    let object = heap.alloc_object(alloc, program, class, path)?;
    write_inside(alloc, space, heap, object, 0, message, path)?;
    heap.write_cell(space, object, 1, cause)?;
    Ok(object)
}

/// Makes the object of an exception of a class in the configurations of a path, of which there is one at least: the string of its
/// message before it, and no cause. After want of memory the heap is given up.
pub(crate) fn exception<S: Space>(
    alloc: Global,
    program: &Program,
    space: &mut S,
    heap: &mut Heap<S>,
    class: ClassId,
    message: Option<u64>,
    path: S::Id,
) -> Result<u64, SpaceFault>
    requires classes { HasClassNumbers program.now }
    requires heap { IsHeap (S.sets space.old) heap.old }
    requires known { IsKnown (S.sets space.old) path }
    requires somewhere { IsSomewhere (S.sets space.old) path }
    requires message { IsMessage heap.old message }
    ensures extends { Extends (S.sets space.old) (S.sets space.new) }
    ensures ok { IfOk result (IsExceptionMade program.now (S.sets space.old) (S.sets space.new) heap.old path class.0 (message_of heap.old message) heap.new) }
{
    let string = message_object(alloc, program, heap, message, path)?;
    let cause = Cond::one(alloc, space, Slot::Null, path)?;
    throwable(alloc, program, space, heap, class, string, &cause, path)
}
