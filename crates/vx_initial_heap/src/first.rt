//! All that runs of a program begin with.

ghost use Rattle.std.specs.Prelude.{◌≡◌, ◌≤◌, length, map, IfOk};
ghost use Rattle.vx_initial_heap.specs.First.{AreFirstObjects, IsFirst, empty_text};
ghost use Rattle.vx_java.specs.FirstObjects.{first_objects, literal_object, literals};
ghost use Rattle.vx_java.specs.Ids.{HasClassNumbers};
ghost use Rattle.vx_java.specs.Step.{first_inits};
ghost use Rattle.vx_link.specs.CoreFiles.{core_count};
ghost use Rattle.vx_value.specs.Texts.{Extends};

use crate::inits::first_inits;
use crate::literals::{Literals, literal_table, literals_of};
use crate::objects::{FirstObject, first_objects};
use crate::statics::{FirstStatic, first_statics};
use crate::text_keys::key_of;
use std::alloc::{AllocError, Global};
use vx_link::Program;
use vx_list::{Items, Keyed};
use vx_value::{InitState, TextTable};

/// What every run of a program begins with: the first objects, what each field begins with, how far the initialisation of each
/// class has come, the texts of the objects, by class and entry of its pool the number of the object of each literal, and the
/// number of the array for main.
#[derive(Drop)]
pub struct First {
    pub objects: Vec<FirstObject>,
    pub statics: Vec<FirstStatic>,
    pub inits: Vec<InitState>,
    pub texts: TextTable,
    pub literals: Vec<Items<u64>>,
    pub words: u64,
}

/// The table with the empty text, as it is before the first objects have theirs.
fn first_texts(alloc: Global, key: Keyed) -> Result<TextTable, AllocError>
    ensures { IfOk result (λ made. made.texts ≡ empty_text) }
{
    let mut texts = TextTable::keyed(alloc, key);
    texts.put(&[])?;
    Ok(texts)
}

/// The first objects, and the texts with theirs behind the empty one.
fn objects_and_texts(
    alloc: Global,
    program: &Program,
    listed: &Literals,
) -> Result<(Vec<FirstObject>, TextTable), AllocError>
    requires classes { HasClassNumbers program.now }
    requires core { core_count ≤ length program.now.classes }
    requires listed { listed.now ≡ literals program.now }
    ensures objects { IfOk result (λ made. AreFirstObjects program.now made.1.texts (first_objects program.now) made.0.items) }
    ensures texts { IfOk result (λ made. Extends empty_text made.1.texts) }
{
    let mut texts = first_texts(alloc, key_of(program.classes.as_slice()))?;
    let objects = first_objects(alloc, program, listed, &mut texts)?;
    Ok((objects, texts))
}

/// How far the initialisation of each class has come, and by class and entry of its pool the number of the object of each literal.
fn inits_and_literals(
    alloc: Global,
    program: &Program,
    listed: &Literals,
) -> Result<(Vec<InitState>, Vec<Items<u64>>), AllocError>
    requires core { core_count ≤ length program.now.classes }
    requires listed { listed.now ≡ literals program.now }
    ensures inits { IfOk result (λ made. made.0.items ≡ first_inits program.now) }
    ensures literals { IfOk result (λ made. made.1.items ≡ map (λ c. map (literal_object program.now c.pool) c.pool.entries) program.now.classes) }
{
    let inits = first_inits(alloc, program)?;
    let literals = literal_table(alloc, program, listed)?;
    Ok((inits, literals))
}

/// What runs begin with, where this says which literals they have.
fn first_by(alloc: Global, program: &Program, listed: &Literals) -> Result<First, AllocError>
    requires classes { HasClassNumbers program.now }
    requires core { core_count ≤ length program.now.classes }
    requires listed { listed.now ≡ literals program.now }
    ensures { IfOk result (IsFirst program.now) }
{
    let (inits, literals) = inits_and_literals(alloc, program, listed)?;
    let statics = first_statics(alloc, program, &literals)?;
    let (objects, texts) = objects_and_texts(alloc, program, listed)?;
    Ok(First {
        objects,
        statics,
        inits,
        texts,
        literals,
        words: listed.number_behind(),
    })
}

impl First {
    /// What every run of a program begins with (JVMS 5.1, 5.2, 5.3).
    pub fn of(alloc: Global, program: &Program) -> Result<First, AllocError>
        requires classes { HasClassNumbers program.now }
        requires core { core_count ≤ length program.now.classes }
        ensures { IfOk result (IsFirst program.now) }
    {
        let listed = literals_of(alloc, program)?;
        first_by(alloc, program, &listed)
    }
}
