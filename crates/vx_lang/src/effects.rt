//! What native methods do, by their behaviours, at one configuration.

ghost use Rattle.std.specs.Prelude.{◌≡◌, IfOk, if◌then◌else◌};
ghost use Rattle.vx_java.specs.Ids.{HasClassNumbers};
ghost use Rattle.vx_lang.specs.Deeds.{deed};
ghost use Rattle.vx_lang.specs.Numbers.{begun, made_number};
ghost use Rattle.vx_natives.specs.Deeds.{deed_of};
ghost use Rattle.vx_strings.specs.Changes.{initialised, is_of_text, is_text_maker, made};

use crate::numbers::{begun, copied, made_number};
use crate::questions::asked_cells;
use crate::values::computed;
use std::alloc::{AllocError, Global};
use vx_heap::Heap;
use vx_link::Program;
use vx_natives::{Behaviour, Call, Effect, Initialiser, Maker};
use vx_space::Space;
use vx_strings::{asked, changed, initialised, made, printed, refuse};

/// Whether an initialiser is one of strings or builders.
fn is_of_text(initialiser: Initialiser) -> bool
    ensures { result ≡ is_of_text initialiser }
{
    !matches!(initialiser, Initialiser::Enum | Initialiser::Throwable)
}

/// What an object begins with.
fn object_begun(alloc: Global, initialiser: Initialiser, call: Call) -> Effect
    ensures { deed_of result ≡ (if is_of_text initialiser then initialised initialiser call else begun initialiser call) }
{
    if is_of_text(initialiser) {
        initialised(alloc, initialiser, call)
    } else {
        begun(initialiser, call)
    }
}

/// Whether a maker works on texts.
fn is_text_maker(maker: Maker) -> bool
    ensures { result ≡ is_text_maker maker }
{
    match maker {
        Maker::LineSeparator
        | Maker::IntegerOf
        | Maker::SpellInt
        | Maker::SpellInteger
        | Maker::SpellBoolean
        | Maker::ClassName => false,
        _ => true,
    }
}

/// What new object is made.
fn object_made<S: Space>(
    alloc: Global,
    program: &Program,
    heap: &Heap<S>,
    maker: Maker,
    call: Call,
) -> Result<Effect, AllocError>
    ensures { IfOk result (λ effect. deed_of effect ≡ (if is_text_maker maker then made heap.now.texts maker call else made_number program.now heap.now maker call)) }
{
    if is_text_maker(maker) {
        made(alloc, heap, maker, call)
    } else {
        made_number(alloc, program, heap, maker, call)
    }
}

/// What a native method does with a call, which has what was read for it behind its values.
pub(crate) fn effect_of<S: Space>(
    alloc: Global,
    program: &Program,
    heap: &Heap<S>,
    behaviour: Behaviour,
    call: Call,
) -> Result<Effect, AllocError>
    requires { HasClassNumbers program.now }
    ensures { IfOk result (λ effect. deed_of effect ≡ deed program.now heap.now behaviour call) }
{
    match behaviour {
        Behaviour::Missing => Ok(refuse()),
        Behaviour::Compute(computation) => Ok(computed(heap, computation, call)),
        Behaviour::AskCells(question) => Ok(asked_cells(heap, question, call)),
        Behaviour::AskTexts(question) => Ok(asked(program, heap, question, call)),
        Behaviour::Initialise(initialiser) => Ok(object_begun(alloc, initialiser, call)),
        Behaviour::Change(change) => changed(alloc, heap, change, call),
        Behaviour::Make(maker) => object_made(alloc, program, heap, maker, call),
        Behaviour::Print(printing) => printed(alloc, printing, call),
        Behaviour::CopyArray => Ok(copied(program, heap, call)),
    }
}
