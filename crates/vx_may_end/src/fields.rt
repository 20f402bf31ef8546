//! What an instruction lacks that names a field (JVMS 6.5 getstatic, putstatic, getfield, putfield).

ghost use Rattle.std.specs.Prelude.{◌≡◌, ◌++◌, ◌<◌, ◌^◌, OnOk, length, option_map};
ghost use Rattle.vx_java.specs.Ids.{HasClassNumbers};
ghost use Rattle.vx_java.specs.Named.{in_bytes};
ghost use Rattle.vx_may_end.specs.Lacks.{of_field, of_field_there, of_found};

use crate::classes::put_initialisation;
use crate::lack::{CLASS, FIELD, FLOAT, Lack, When, put_lack, put_named, put_nameless};
use std::alloc::{AllocError, Global};
use vx_desc::field_type;
use vx_java::parts::class_of_field;
use vx_java::{MemberReference, class_named, resolve_field};
use vx_link::Program;
use vx_references::fields::is_static_field;
use vx_references::{field_text, sort_of};
use vx_value::FieldId;

/// Puts what an instruction lacks whose field is there: a static one has its class initialised.
fn put_found(
    alloc: Global,
    out: &mut Vec<Lack>,
    program: &Program,
    is_static: bool,
    field: FieldId,
) -> Result<(), AllocError>
    requires { HasClassNumbers program.now }
    ensures { OnOk result (out.new.items ≡ out.old.items ++ of_found program.now is_static field.0) }
{
    if !is_static {
        return Ok(());
    }
    if !is_static_field(program, field) {
        return Ok(());
    }
    put_initialisation(alloc, out, program, class_of_field(program, field))
}

/// Puts what an instruction lacks by the field that its name is resolved to, if there is one.
fn put_field_there(
    alloc: Global,
    out: &mut Vec<Lack>,
    program: &Program,
    is_static: bool,
    named: &MemberReference<'_>,
    field: Option<FieldId>,
) -> Result<(), AllocError>
    requires { HasClassNumbers program.now }
    ensures { OnOk result (out.new.items ≡ out.old.items ++ of_field_there program.now is_static (in_bytes named.now) (option_map (λ f. f.0) field)) }
{
    match field {
        Some(field) => put_found(alloc, out, program, is_static, field),
        None => {
            let what = field_text(alloc, named)?;
            put_lack(out, When::Always, FIELD, what)
        }
    }
}

/// Puts what an instruction of a field lacks.
pub(crate) fn put_field(
    alloc: Global,
    out: &mut Vec<Lack>,
    program: &Program,
    is_static: bool,
    named: &MemberReference<'_>,
) -> Result<(), AllocError>
    requires classes { HasClassNumbers program.now }
    requires few { length named.now.class.now < 2 ^ 16 }
    requires short { length named.now.descriptor.now < 2 ^ 16 }
    ensures { OnOk result (out.new.items ≡ out.old.items ++ of_field program.now is_static (in_bytes named.now)) }
{
    let Some(field_type) = field_type(named.descriptor) else {
        return Ok(());
    };
    if sort_of(field_type).is_none() {
        return put_nameless(alloc, out, FLOAT);
    }
    let Some(class) = class_named(program, named.class) else {
        return put_named(alloc, out, When::Always, CLASS, named.class);
    };
    let field = resolve_field(program, class, named.name, named.descriptor);
    put_field_there(alloc, out, program, is_static, named, field)
}
