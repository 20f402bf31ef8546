//! What an instruction lacks that names or initialises a class.

ghost use Rattle.std.specs.Prelude.{◌≡◌, ◌++◌, ◌<◌, ◌^◌, [], OnOk, length, map};
ghost use Rattle.std.specs.List.{cons_option};
ghost use Rattle.vx_java.specs.Ids.{HasClassNumbers};
ghost use Rattle.vx_java.specs.Initialisation.{blocked};
ghost use Rattle.vx_link.specs.Names.{class_name};
ghost use Rattle.vx_may_end.specs.Lacks.{of_blocking, of_class, of_initialisation, of_new, of_primitives};

use crate::lack::{CLASS, FLOAT, Lack, When, put_lack, put_named, put_nameless};
use std::alloc::{AllocError, Global};
use vx_java::parts::{is_without_objects, superclass_of};
use vx_java::{blocked, class_named};
use vx_link::Program;
use vx_pool::{Pool, class_text as name_in};
use vx_references::arrays::{element_of_number, is_float};
use vx_spelling::class_text;
use vx_value::ClassId;

/// The name of a class that an entry has.
pub(crate) fn class_name(pool: &Pool, index: u16) -> &[u8]
    ensures named { result.now ≡ class_name pool.now index }
    ensures few { length result.now < 2 ^ 16 }
{
    name_in(pool, index).unwrap_or(&[])
}

/// Puts the lack of a class, where it isn't there.
pub(crate) fn put_class(
    alloc: Global,
    out: &mut Vec<Lack>,
    program: &Program,
    when: When,
    name: &[u8],
) -> Result<(), AllocError>
    requires classes { HasClassNumbers program.now }
    requires text { length name.now < 2 ^ 32 }
    ensures { OnOk result (out.new.items ≡ out.old.items ++ of_class program.now when name.now (λ c. [])) }
{
    match class_named(program, name) {
        Some(_) => Ok(()),
        None => put_named(alloc, out, when, CLASS, name),
    }
}

/// Puts the interface that blocks the initialisation of a class.
fn put_blocking(
    alloc: Global,
    out: &mut Vec<Lack>,
    program: &Program,
    class: ClassId,
) -> Result<(), AllocError>
    requires { HasClassNumbers program.now }
    ensures { OnOk result (out.new.items ≡ out.old.items ++ map (of_blocking program.now) (cons_option (blocked program.now class.0) [])) }
{
    match blocked(program, class) {
        Some(interface) => {
            let what = class_text(alloc, program, interface)?;
            put_lack(out, When::Perhaps, CLASS, what)
        }
        None => Ok(()),
    }
}

/// Puts the interfaces that block the initialisation of a class and of those above it.
pub(crate) fn put_initialisation(
    alloc: Global,
    out: &mut Vec<Lack>,
    program: &Program,
    class: ClassId,
) -> Result<(), AllocError>
    requires { HasClassNumbers program.now }
    ensures { OnOk result (out.new.items ≡ out.old.items ++ of_initialisation program.now class.0) }
{
    let mut left = program.classes.len();
    let mut next = Some(class);
    while left > 0 {
        let Some(class) = next else {
            return Ok(());
        };
        put_blocking(alloc, out, program, class)?;
        next = superclass_of(program, class);
        left -= 1;
    }
    Ok(())
}

/// Puts what `new` of a class lacks.
fn put_new_of(
    alloc: Global,
    out: &mut Vec<Lack>,
    program: &Program,
    class: ClassId,
) -> Result<(), AllocError>
    requires { HasClassNumbers program.now }
    ensures { OnOk result (out.new.items ≡ out.old.items ++ of_new program.now class.0) }
{
    if is_without_objects(program, class) {
        return Ok(());
    }
    put_initialisation(alloc, out, program, class)
}

/// Puts what `new` of a name lacks.
pub(crate) fn put_new(
    alloc: Global,
    out: &mut Vec<Lack>,
    program: &Program,
    name: &[u8],
) -> Result<(), AllocError>
    requires classes { HasClassNumbers program.now }
    requires text { length name.now < 2 ^ 32 }
    ensures { OnOk result (out.new.items ≡ out.old.items ++ of_class program.now When.Always name.now (of_new program.now)) }
{
    match class_named(program, name) {
        Some(class) => put_new_of(alloc, out, program, class),
        None => put_named(alloc, out, When::Always, CLASS, name),
    }
}

/// Puts what `newarray` lacks.
pub(crate) fn put_primitives(
    alloc: Global,
    out: &mut Vec<Lack>,
    number: u32,
) -> Result<(), AllocError>
    ensures { OnOk result (out.new.items ≡ out.old.items ++ of_primitives number) }
{
    if is_float(element_of_number(number)) {
        put_nameless(alloc, out, FLOAT)
    } else {
        Ok(())
    }
}
