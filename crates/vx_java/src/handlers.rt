//! The catch rows of a method (JVMS 2.10).

ghost use Rattle.std.specs.Prelude.{◌≡◌, ◌<◌, ◌^◌, length, option_map};
ghost use Rattle.vx_java.specs.Ids.{HasClassNumbers};
ghost use Rattle.vx_java.specs.Selection.{catches_of, covers, handler_for, handler_in, takes, takes_class};
ghost use Rattle.vx_link.specs.Names.{class_name};
ghost use Rattle.vx_link.specs.Parts.{class_at, method_at};

use crate::assignability::assignable;
use crate::naming::class_named;
use crate::parts::class_of_method;
use vx_class::Catch;
use vx_link::Program;
use vx_pool::class_text;
use vx_value::{ClassId, MethodId};

/// The name that a class entry of a class's pool has.
pub fn name_of_entry(program: &Program, class: ClassId, index: u16) -> &[u8]
    ensures name { result.now ≡ class_name (class_at program.now class.0).pool index }
    ensures few { length result.now < 2 ^ 16 }
{
    let Some(class) = program.class(class) else {
        return &[];
    };
    match class_text(&class.pool, index) {
        Some(name) => name,
        None => &[],
    }
}

fn takes_class(program: &Program, thrown: ClassId, class: Option<ClassId>) -> bool
    ensures { result ≡ takes_class program.now thrown.0 (option_map (λ c. c.0) class) }
{
    match class {
        Some(class) => assignable(program, thrown, class),
        None => false,
    }
}

/// Whether a row of a method of a class takes a thrown class.
#[tactic(auto, using(crate::proofs::Walks::numbers_back))]
fn takes(program: &Program, class: ClassId, row: Catch, thrown: ClassId) -> bool
    requires { HasClassNumbers program.now }
    ensures { result ≡ takes program.now (class_at program.now class.0).pool row thrown.0 }
{
    if row.class == 0 {
        return true;
    }
    let named = class_named(program, name_of_entry(program, class, row.class));
    takes_class(program, thrown, named)
}

/// Whether a row covers a position: from its start on, and before its end.
pub fn covers(row: Catch, position: u32) -> bool
    ensures { result ≡ covers row position }
{
    u32::from(row.start) <= position && position < u32::from(row.end)
}

fn handler_in(
    program: &Program,
    class: ClassId,
    rows: &[Catch],
    position: u32,
    thrown: ClassId,
) -> Option<u32>
    requires { HasClassNumbers program.now }
    ensures { result ≡ handler_in program.now (class_at program.now class.0).pool rows.now position thrown.0 }
{
    for row in rows {
        if covers(*row, position) && takes(program, class, *row, thrown) {
            return Some(u32::from(row.handler));
        }
    }
    None
}

fn catches_of(program: &Program, method: MethodId) -> &[Catch]
    ensures { result.now ≡ catches_of (method_at program.now method.0).code }
{
    match program.method(method) {
        Some(method) => match &method.code {
            Some(code) => code.catches.as_slice(),
            None => &[],
        },
        None => &[],
    }
}

/// The handler of the first row of a method that covers a position and takes a thrown class, or `None` where no row does both. The
/// end of a row is not covered; a row of class 0 takes all, and one of a class that isn't there takes nothing.
pub fn handler_for(
    program: &Program,
    method: MethodId,
    position: u32,
    thrown: ClassId,
) -> Option<u32>
    requires { HasClassNumbers program.now }
    ensures { result ≡ handler_for program.now method.0 position thrown.0 }
{
    let class = class_of_method(program, method);
    let rows = catches_of(program, method);
    handler_in(program, class, rows, position, thrown)
}
