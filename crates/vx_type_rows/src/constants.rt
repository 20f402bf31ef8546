//! Constants of the pool (JVMS 6.5 ldc, ldc_w, ldc2_w).

ghost use Rattle.std.specs.Prelude.{◌≡◌, ◌<◌, ◌^◌, IfOk, codes, length};
ghost use Rattle.vx_pool.specs.Lookups.{entry_of};
ghost use Rattle.vx_java.specs.Ids.{HasClassNumbers};
ghost use Rattle.vx_types.specs.Plain.{gives};
ghost use Rattle.vx_types.specs.Rows.{pool_of, push_entry, with_class};
ghost use Rattle.vx_types.specs.Types.{core_type};

use crate::pool::{entry_at, text_at};
use crate::wants::gives;
use std::alloc::{AllocError, Global};
use vx_java::class_named;
use vx_link::Program;
use vx_pool::Entry;
use vx_types::{Row, VerType, ref_of};
use vx_value::MethodId;

/// What a constant of an entry gives: a number, a String, or the Class of a class that is there. A float, a double, a method handle and
/// a method type end the run.
pub fn push_entry(
    alloc: Global,
    program: &Program,
    method: MethodId,
    index: u16,
) -> Result<Row, AllocError>
    requires { HasClassNumbers program.now }
    ensures { IfOk result (λ row. row ≡ push_entry program.now (pool_of program.now method.0) (entry_of (pool_of program.now method.0) index)) }
{
    match entry_at(program, method, index) {
        Some(Entry::Integer(_)) => Ok(gives(alloc, VerType::Int)),
        Some(Entry::Long(_)) => Ok(gives(alloc, VerType::Long)),
        Some(Entry::Text(_)) => Ok(gives(alloc, ref_of(alloc, program, b"java/lang/String")?)),
        Some(Entry::Class(name)) => push_class(alloc, program, text_at(program, method, *name)),
        Some(
            Entry::Float(_) | Entry::Double(_) | Entry::MethodHandle(_, _) | Entry::MethodType(_),
        ) => Ok(Row::Ends),
        _ => Ok(Row::Refused),
    }
}

/// What the class object of a name gives.
fn push_class(alloc: Global, program: &Program, name: &[u8]) -> Result<Row, AllocError>
    requires classes { HasClassNumbers program.now }
    requires text { length name.now < 2 ^ 32 }
    ensures { IfOk result (λ row. row ≡ with_class program.now name.now (λ c. gives (core_type program.now "java/lang/Class"))) }
{
    match class_named(program, name) {
        Some(_class) => Ok(gives(alloc, ref_of(alloc, program, b"java/lang/Class")?)),
        None => Ok(Row::Ends),
    }
}
