//! What an instruction lacks.

ghost use Rattle.std.specs.Option.{option_copied};
ghost use Rattle.std.specs.Prelude.{◌≡◌, ◌++◌, ◌<◌, ◌≤◌, ◌^◌, IfOk, OnOk, Some, length};
ghost use Rattle.vx_java.specs.Ids.{HasClassNumbers};
ghost use Rattle.vx_java.specs.Named.{in_bytes};
ghost use Rattle.vx_link.specs.Names.{member, utf8};
ghost use Rattle.vx_link.specs.Parts.{class_at, method_at};
ghost use Rattle.vx_may_end.specs.Lacks.{lacks_at, lacks_in, lacks_of, of_entry};

use crate::calls::{Call, put_call};
use crate::classes::{class_name, put_class, put_new, put_primitives};
use crate::fields::put_field;
use crate::lack::{CONSTANT, FLOAT, Lack, When, put_nameless};
use std::alloc::{AllocError, Global};
use vx_class::Code;
use vx_java::decoding::operation;
use vx_java::parts::class_of_method;
use vx_java::{MemberReference, Operation, member_by};
use vx_link::Program;
use vx_list::Items;
use vx_opcode::decode;
use vx_pool::{Entry, Pool, entry_of, text};
use vx_value::{ClassId, MethodId};

/// The bytes of a text entry.
fn text_of(pool: &Pool, index: u16) -> &[u8]
    ensures named { result.now ≡ utf8 pool.now index }
    ensures few { length result.now < 2 ^ 16 }
{
    text(pool, index).unwrap_or(&[])
}

/// Puts what `ldc` of an entry lacks.
fn put_entry(
    alloc: Global,
    out: &mut Vec<Lack>,
    program: &Program,
    pool: &Pool,
    entry: Option<&Entry>,
) -> Result<(), AllocError>
    requires { HasClassNumbers program.now }
    ensures { OnOk result (out.new.items ≡ out.old.items ++ of_entry program.now pool.now (option_copied entry.entry)) }
{
    match entry {
        Some(Entry::Class(i)) => put_class(alloc, out, program, When::Always, text_of(pool, *i)),
        Some(Entry::Float(_) | Entry::Double(_)) => put_nameless(alloc, out, FLOAT),
        Some(Entry::MethodHandle(_, _) | Entry::MethodType(_)) => {
            put_nameless(alloc, out, CONSTANT)
        }
        _ => Ok(()),
    }
}

/// The field or method that the entry of an index names.
fn reference(pool: &Pool, index: u16) -> MemberReference<'_>
    ensures named { in_bytes result ≡ member pool.now index }
    ensures few { length result.class.now < 2 ^ 16 }
    ensures short { length result.descriptor.now < 2 ^ 16 }
{
    member_by(pool, entry_of(pool, index))
}

/// Puts what an operation lacks in a method of a class.
fn put_operation(
    alloc: Global,
    out: &mut Vec<Lack>,
    program: &Program,
    pool: &Pool,
    current: ClassId,
    operation: Operation,
) -> Result<(), AllocError>
    requires { HasClassNumbers program.now }
    ensures { OnOk result (out.new.items ≡ out.old.items ++ lacks_of program.now pool.now current.0 operation) }
{
    match operation {
        Operation::PushEntry(i) => put_entry(alloc, out, program, pool, entry_of(pool, i)),
        Operation::GetStatic(i) | Operation::PutStatic(i) => {
            put_field(alloc, out, program, true, &reference(pool, i))
        }
        Operation::GetField(i) | Operation::PutField(i) => {
            put_field(alloc, out, program, false, &reference(pool, i))
        }
        Operation::Invoke(mode, i) => {
            let reference = reference(pool, i);
            let call = Call {
                current,
                mode,
                reference,
            };
            put_call(alloc, out, program, &call)
        }
        Operation::New(i) => put_new(alloc, out, program, class_name(pool, i)),
        Operation::NewPrimitives(number) => put_primitives(alloc, out, number),
        Operation::NewReferences(i) | Operation::NewGrid(i, _) => {
            put_class(alloc, out, program, When::Always, class_name(pool, i))
        }
        Operation::CheckCast(i) | Operation::InstanceOf(i) => {
            put_class(alloc, out, program, When::Perhaps, class_name(pool, i))
        }
        Operation::Refuse(word) => put_nameless(alloc, out, word),
        _ => Ok(()),
    }
}

/// Puts what an operation lacks in a method of a class, whose pool is that of the class; that of a class that isn't there is empty.
fn put_in_class(
    alloc: Global,
    out: &mut Vec<Lack>,
    program: &Program,
    current: ClassId,
    operation: Operation,
) -> Result<(), AllocError>
    requires { HasClassNumbers program.now }
    ensures { OnOk result (out.new.items ≡ out.old.items ++ lacks_of program.now (class_at program.now current.0).pool current.0 operation) }
{
    let none = Pool {
        entries: Items::of(Vec::new(alloc)),
    };
    let pool = match program.class(current) {
        Some(class) => &class.pool,
        None => &none,
    };
    put_operation(alloc, out, program, pool, current, operation)
}

/// Puts what the instruction at a position of a code lacks, in a method of a class.
fn put_lacks_in(
    alloc: Global,
    out: &mut Vec<Lack>,
    program: &Program,
    current: ClassId,
    code: &Code,
    position: u32,
) -> Result<(), AllocError>
    requires classes { HasClassNumbers program.now }
    requires few { length code.now.bytes ≤ 65535 }
    ensures { OnOk result (out.new.items ≡ out.old.items ++ lacks_in program.now current.0 (Some code.now) position) }
{
    match decode(code.bytes.as_slice(), position) {
        Ok(instruction) => {
            let does = operation(&instruction);
            put_in_class(alloc, out, program, current, does)
        }
        Err(_) => Ok(()),
    }
}

/// What the instruction at a position of a method's code lacks.
pub(crate) fn lacks_at(
    alloc: Global,
    program: &Program,
    method: MethodId,
    code: &Code,
    position: u32,
) -> Result<Vec<Lack>, AllocError>
    requires classes { HasClassNumbers program.now }
    requires few { length code.now.bytes ≤ 65535 }
    requires code { (method_at program.now method.0).code ≡ Some code.now }
    ensures { IfOk result (λ lacks. lacks.items ≡ lacks_at program.now method.0 position) }
{
    let mut lacks = Vec::new(alloc);
    put_lacks_in(
        alloc,
        &mut lacks,
        program,
        class_of_method(program, method),
        code,
        position,
    )?;
    Ok(lacks)
}
