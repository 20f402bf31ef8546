//! Texts in the cells of strings and builders.

ghost use Rattle.std.specs.Prelude.{◌≡◌, ◌<◌, ◌^◌, length};
ghost use Rattle.vx_natives.specs.Texts.{units_of};
ghost use Rattle.vx_value.specs.Texts.{text_at};

use vx_heap::Heap;
use vx_space::Space;
use vx_value::Slot;

/// The units of the text of a number, and none where there is no such text. An int counts them.
fn text_of<S: Space>(heap: &Heap<S>, number: u64) -> &[u16]
    ensures units { result.now ≡ text_at heap.now.texts number }
    ensures short { length result.now < 2 ^ 31 }
{
    let texts = heap.texts();
    let count = texts.len();
    if number < count {
        texts.text(number)
    } else {
        &[]
    }
}

/// The units of the text in a cell, and none where it holds no text. An int counts them.
pub fn units_in<S: Space>(heap: &Heap<S>, cell: Slot) -> &[u16]
    ensures units { result.now ≡ units_of heap.now.texts cell }
    ensures short { length result.now < 2 ^ 31 }
{
    match cell {
        Slot::Text(number) => text_of(heap, number),
        _ => &[],
    }
}
