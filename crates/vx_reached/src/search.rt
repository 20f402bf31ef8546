//! The search from main. Contracts say how many marks it makes, and not which: they bear only on the order in which something is told.

ghost use Rattle.std.specs.Prelude.{◌≡◌, IfOk, length};

use crate::calls::Called;
use crate::names::{MethodNames, full_name_of};
use std::alloc::{AllocError, Global};
use vx_link::Program;
use vx_numbered::next_number;
use vx_value::MethodId;

/// What initialises a class: no instruction calls it.
const INITIALISER: &[u8] = b"<clinit>()V";

/// The names of main, of initialisers, and of what methods of these names call, and so on.
fn called(alloc: Global, program: &Program, names: &MethodNames) -> Result<Called, AllocError> {
    let mut called = Called::none(alloc, names.len())?;
    let main = full_name_of(alloc, program, program.main)?;
    called.put_name(names, main.as_slice())?;
    called.put_name(names, INITIALISER)?;
    for at in 0..names.len() {
        let Some(place) = called.order.get(at).copied() else {
            return Ok(called);
        };
        called.put_methods(alloc, names, program, names.at(place))?;
    }
    Ok(called)
}

/// Whether the name of a method is called.
fn is_called(
    alloc: Global,
    program: &Program,
    names: &MethodNames,
    called: &Called,
    method: MethodId,
) -> Result<bool, AllocError> {
    let full = full_name_of(alloc, program, method)?;
    Ok(match names.place_of(full.as_slice()) {
        Some(place) => called.marks.get(place).copied().unwrap_or(false),
        None => false,
    })
}

/// A mark for each method of a program, by their numbers: whether calls lead to it from main or from what initialises a class. A call
/// leads to each method of its name and its descriptor, of whatever class. What is told of a program is ordered by the marks, and nothing
/// else rests on them, so the clause says only how many there are. It takes as many steps as the program has instructions. The only
/// refusal is want of memory.
pub fn reached(alloc: Global, program: &Program) -> Result<Vec<bool>, AllocError>
    ensures { IfOk result (λ marks. length marks.items ≡ length program.now.methods) }
{
    let names = MethodNames::of(alloc, program)?;
    let called = called(alloc, program, &names)?;
    let mut marks = Vec::new(alloc);
    for number in 0..program.methods.len() {
        let method = MethodId(next_number(number)?);
        marks.push(is_called(alloc, program, &names, &called, method)?)?;
    }
    Ok(marks)
}
