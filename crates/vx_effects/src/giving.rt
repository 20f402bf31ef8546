//! Effects that need no space: exceptions, new objects, and texts that are written.

ghost use Rattle.std.specs.Prelude.{◌≡◌, ◌≤◌, IfOk, None, length, map, true};
ghost use Rattle.vx_effects.specs.Elements.{char_slot};
ghost use Rattle.vx_effects.specs.Carrying.{IsCarried};
ghost use Rattle.vx_heap.specs.Heap.{IsTextPut};
ghost use Rattle.vx_java.specs.Ids.{HasClassNumbers};
ghost use Rattle.vx_java.specs.Machine.{length_bound};
ghost use Rattle.vx_link.specs.ClassNames.{core_class};
ghost use Rattle.vx_natives.specs.Chars.{is_text_known};
ghost use Rattle.vx_link.specs.declared.program.Program.{Program};
ghost use Rattle.vx_natives.specs.Deeds.{class_raised, gives_chars, gives_integer, gives_text, prints, text_with};
ghost use Rattle.vx_value.specs.declared.ids.ClassId.{ClassId};

use std::alloc::{AllocError, Global};
use vx_group_states::Answer;
use vx_heap::Heap;
use vx_java::core_class;
use vx_link::Program;
use vx_natives::Exception;
use vx_references::arrays::{CHAR, array_of_primitives};
use vx_space::{Space, SpaceFault};
use vx_value::{ClassId, Slot, Stream};

/// The greatest length of an array.
const MOST_ELEMENTS: usize = 1_048_576;

/// The class of what is raised.
fn class_raised(program: &Program, exception: Exception) -> ClassId
    requires { HasClassNumbers program.now }
    ensures { result.0 ≡ core_class program.now (class_raised exception) }
{
    match exception {
        Exception::Null => core_class(program, b"java/lang/NullPointerException"),
        Exception::BadIndex => core_class(program, b"java/lang/StringIndexOutOfBoundsException"),
        Exception::BadNumber => core_class(program, b"java/lang/NumberFormatException"),
        Exception::Memory => core_class(program, b"java/lang/OutOfMemoryError"),
        Exception::NegativeSize => core_class(program, b"java/lang/NegativeArraySizeException"),
        Exception::Store => core_class(program, b"java/lang/ArrayStoreException"),
        Exception::Outside => core_class(program, b"java/lang/ArrayIndexOutOfBoundsException"),
    }
}

/// An exception without a message.
pub(crate) fn raised(program: &Program, exception: Exception) -> Answer
    requires { HasClassNumbers program.now }
    ensures { (class : ClassId) × (result ≡ Answer.Raise class None) × (class.0 ≡ core_class program.now (class_raised exception)) }
{
    Answer::Raise(class_raised(program, exception), None)
}

/// The number of the text of a slot with units behind it, which is in the heap then.
pub(crate) fn text_number<S: Space>(
    heap: &mut Heap<S>,
    start: Slot,
    units: &[u16],
) -> Result<u64, AllocError>
    requires { is_text_known heap.old.texts start ≡ true }
    ensures { IfOk result (λ number. IsTextPut heap.old (text_with heap.old.texts start units.now) number heap.new) }
{
    match start {
        Slot::Text(number) => heap.append_text(number, units),
        _ => heap.put_text(units),
    }
}

/// A new string is given.
pub(crate) fn give_text<S: Space>(
    alloc: Global,
    program: &Program,
    heap: &mut Heap<S>,
    start: Slot,
    units: Vec<u16>,
    condition: S::Id,
) -> Result<Answer, SpaceFault>
    requires classes { HasClassNumbers program.now }
    requires known { is_text_known heap.old.texts start ≡ true }
    ensures { IfOk result (IsCarried program.now heap.old heap.new condition (gives_text start units.items)) }
{
    let number = text_number(heap, start, &units)?;
    let class = core_class(program, b"java/lang/String");
    let reference = heap.alloc_cells(alloc, class, 0, &[Slot::Text(number)], condition)?;
    Ok(Answer::Give(Slot::Ref(reference)))
}

/// The units of a text as elements.
fn elements_of(alloc: Global, units: &[u16]) -> Result<Vec<Slot>, AllocError>
    ensures { IfOk result (λ slots. slots.items ≡ map char_slot units.now) }
{
    let mut slots = Vec::with_capacity(alloc, units.len())?;
    for unit in units {
        slots.push(Slot::Int(i32::from(*unit)))?;
    }
    Ok(slots)
}

/// How many elements the array of a text has. No text of a program is longer than an array.
fn element_count(units: &[u16]) -> Result<u32, AllocError>
    ensures count { IfOk result (λ n. n ≡ length units.now) }
    ensures short { IfOk result (λ n. n ≤ length_bound) }
{
    let count = units.len();
    if count > MOST_ELEMENTS {
        return Err(AllocError);
    }
    Ok(count as u32)
}

/// A new array of chars is given.
pub(crate) fn give_chars<S: Space>(
    alloc: Global,
    program: &Program,
    heap: &mut Heap<S>,
    units: Vec<u16>,
    condition: S::Id,
) -> Result<Answer, SpaceFault>
    requires classes { HasClassNumbers program.now }
    ensures { IfOk result (IsCarried program.now heap.old heap.new condition (gives_chars units.items)) }
{
    let size = element_count(&units)?;
    let elements = elements_of(alloc, &units)?;
    let class = array_of_primitives(program, CHAR);
    let reference = heap.alloc_cells(alloc, class, size, &elements, condition)?;
    Ok(Answer::Give(Slot::Ref(reference)))
}

/// A new Integer is given.
pub(crate) fn give_integer<S: Space>(
    alloc: Global,
    program: &Program,
    heap: &mut Heap<S>,
    n: i32,
    condition: S::Id,
) -> Result<Answer, SpaceFault>
    requires classes { HasClassNumbers program.now }
    ensures { IfOk result (IsCarried program.now heap.old heap.new condition (gives_integer n)) }
{
    let class = core_class(program, b"java/lang/Integer");
    let reference = heap.alloc_cells(alloc, class, 0, &[Slot::Int(n)], condition)?;
    Ok(Answer::Give(Slot::Ref(reference)))
}

/// A text is written.
pub(crate) fn print<S: Space>(
    heap: &mut Heap<S>,
    stream: Stream,
    start: Slot,
    units: Vec<u16>,
) -> Result<Answer, SpaceFault>
    requires known { is_text_known heap.old.texts start ≡ true }
    ensures { IfOk result (λ a. (p : Program) (condition : S.Id) → IsCarried p heap.old heap.new condition (prints stream start units.items) a) }
{
    let number = text_number(heap, start, &units)?;
    Ok(Answer::Write(stream, number))
}
