//! The state before main, at a configuration.

ghost use Rattle.std.specs.Prelude.{◌≡◌, ◌<◌, ◌∷◌, [], IfOk, Some, false, length, map, true};
ghost use Rattle.vx_initial_heap.specs.First.{IsFirst, cells_in, empty_text, is_among, is_cell_among, object_in, static_in, value_in};
ghost use Rattle.vx_java.specs.Initialisation.{new_frame};
ghost use Rattle.vx_java.specs.Machine.{Ref, Text as TextValue};
ghost use Rattle.vx_java.specs.Step.{before_main};
ghost use Rattle.vx_list.specs.Places.{item_or};
ghost use Rattle.vx_plain.specs.Views.{cells_of, frame_of, object_of, state_of, value_of, values_of};
ghost use Rattle.vx_plain_start.specs.First.{are_cells_among};
ghost use Rattle.vx_value.specs.Texts.{text_at};
ghost use Rattle.vx_value.specs.declared.key.Kind.TheVariants.{Call};

use std::alloc::{AllocError, Global};
use vx_initial_heap::{First, FirstObject, FirstStatic};
use vx_link::Program;
use vx_plain::{Body, Frame, Object, State, Value};
use vx_plain_tables::value_of_slot;
use vx_value::{InitState, Kind, Slot, TextTable};

/// A body of one cell, whose slot names no text.
fn cell_body(alloc: Global, _texts: &TextTable, slot: Slot) -> Result<Body, AllocError>
    ensures { IfOk result (λ body. cells_of body ≡ value_in _texts.now.texts slot ∷ []) }
{
    let value = value_of_slot(slot)?;
    let mut cells = Vec::new(alloc);
    cells.push(value)?;
    Ok(Body {
        text: None,
        values: cells,
    })
}

/// A body of a text.
fn text_body(alloc: Global, texts: &TextTable, text: u64) -> Result<Body, AllocError>
    requires { text < length texts.now.texts }
    ensures { IfOk result (λ body. cells_of body ≡ TextValue (text_at texts.now.texts text) ∷ []) }
{
    Ok(Body::of_text(Vec::from_slice(alloc, texts.text(text))?))
}

/// A body of one cell or of a text.
fn body_with(alloc: Global, texts: &TextTable, slot: Slot) -> Result<Body, AllocError>
    requires { is_among 0 (length texts.now.texts) slot ≡ true }
    ensures { IfOk result (λ body. cells_of body ≡ value_in texts.now.texts slot ∷ []) }
{
    match slot {
        Slot::Text(text) => text_body(alloc, texts, text),
        _ => cell_body(alloc, texts, slot),
    }
}

/// What a first object holds.
fn body_of(alloc: Global, texts: &TextTable, cell: Option<Slot>) -> Result<Body, AllocError>
    requires { is_cell_among (length texts.now.texts) cell ≡ true }
    ensures { IfOk result (λ body. cells_of body ≡ cells_in texts.now.texts cell) }
{
    match cell {
        Some(slot) => body_with(alloc, texts, slot),
        None => Ok(Body {
            text: None,
            values: Vec::new(alloc),
        }),
    }
}

/// A first object.
fn object_of(alloc: Global, texts: &TextTable, first: &FirstObject) -> Result<Object, AllocError>
    requires { is_cell_among (length texts.now.texts) first.now.cell ≡ true }
    ensures { IfOk result (λ object. object_of object ≡ object_in texts.now.texts first.now) }
{
    let body = body_of(alloc, texts, first.cell)?;
    Ok(Object {
        class: first.class,
        size: 0,
        body,
    })
}

#[tactic(auto, using(crate::proofs::Laws::object_put, crate::proofs::Laws::cell_held))]
fn objects_of(
    alloc: Global,
    texts: &TextTable,
    firsts: &[FirstObject],
) -> Result<Vec<Object>, AllocError>
    requires { are_cells_among (length texts.now.texts) firsts.now ≡ true }
    ensures { IfOk result (λ objects. map object_of objects.items ≡ map (object_in texts.now.texts) firsts.now) }
{
    let mut objects = Vec::new(alloc);
    for first in firsts {
        objects.push(object_of(alloc, texts, first)?)?;
    }
    Ok(objects)
}

/// Whether an option is on; one past the end of the configuration is off.
fn is_on(config: &[bool], option: u32) -> bool
    ensures { result ≡ item_or config.now option false }
{
    config.get(option as usize).copied().unwrap_or(false)
}

/// What a static field begins with. A text is not held.
fn static_of(first: &FirstStatic, config: &[bool]) -> Result<Value, AllocError>
    ensures { IfOk result (λ value. value_of value ≡ static_in empty_text config.now first.now) }
{
    match *first {
        FirstStatic::Same(slot) => value_of_slot(slot),
        FirstStatic::OfOption(option) => Ok(Value::of_bool(is_on(config, option))),
    }
}

#[tactic(auto, using(crate::proofs::Laws::static_put))]
fn statics_of(
    alloc: Global,
    firsts: &[FirstStatic],
    config: &[bool],
) -> Result<Vec<Value>, AllocError>
    ensures { IfOk result (λ statics. values_of statics.items ≡ map (static_in empty_text config.now) firsts.now) }
{
    let mut statics = Vec::new(alloc);
    for first in firsts {
        statics.push(static_of(first, config)?)?;
    }
    Ok(statics)
}

/// The first objects.
fn heap_of(alloc: Global, first: &First) -> Result<Vec<Object>, AllocError>
    requires { are_cells_among (length first.now.texts.texts) first.now.objects.items ≡ true }
    ensures { IfOk result (λ objects. map object_of objects.items ≡ map (object_in first.now.texts.texts) first.now.objects.items) }
{
    objects_of(alloc, &first.texts, &first.objects)
}

/// What the static fields begin with.
fn statics_at(alloc: Global, first: &First, config: &[bool]) -> Result<Vec<Value>, AllocError>
    ensures { IfOk result (λ statics. values_of statics.items ≡ map (static_in empty_text config.now) first.now.statics.items) }
{
    statics_of(alloc, &first.statics, config)
}

/// How far the initialisation of each class has come.
fn inits_of(alloc: Global, first: &First) -> Result<Vec<InitState>, AllocError>
    ensures { IfOk result (λ inits. inits.items ≡ first.now.inits.items) }
{
    Vec::from_slice(alloc, &first.inits)
}

/// The frame of main.
fn frame_of_main(alloc: Global, program: &Program, words: u64) -> Result<Frame, AllocError>
    ensures { IfOk result (λ frame. frame_of frame ≡ new_frame program.now Call program.now.main.0 (Ref words ∷ [])) }
{
    let mut arguments = Vec::new(alloc);
    arguments.push(Value::Ref(words))?;
    Frame::of(alloc, program, Kind::Call, program.main, arguments)
}

/// The state before main, at a configuration.
#[tactic(auto, unfolding(vx_plain::specs::Views::state_of))]
pub fn before_main(
    alloc: Global,
    program: &Program,
    first: &First,
    config: &[bool],
) -> Result<State, AllocError>
    requires { IsFirst program.now first.now }
    ensures { IfOk result (λ state. state_of state ≡ before_main program.now config.now) }
{
    let top = frame_of_main(alloc, program, first.words)?;
    let heap = heap_of(alloc, first)?;
    let statics = statics_at(alloc, first, config)?;
    let inits = inits_of(alloc, first)?;
    Ok(State {
        heap,
        statics,
        inits,
        top,
        callers: Vec::new(alloc),
    })
}
