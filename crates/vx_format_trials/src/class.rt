use crate::files::{OPTION, SMALLEST};
use std::alloc::Global;
use vx_class::{ClassFile, Code, Field, read_class};
use vx_desc::{Base, Descriptor, read_descriptor};
use vx_opcode::{Operand, decode};
use vx_pool::{Cursor, Entry, read_pool};

/// How many entries the pool of a class has.
fn entries(alloc: Global, bytes: &[u8]) -> Option<usize> {
    match read_class(alloc, bytes) {
        Ok(class) => Some(class.pool.entries.as_slice().len()),
        Err(_) => None,
    }
}

#[test]
fn reads_a_class(rt: HostRuntime) {
    assert!(rt; entries(rt.alloc(), &SMALLEST) == Some(5));
    assert!(rt; entries(rt.alloc(), &OPTION) == Some(24));
}

fn is_the_field(field: &Field) -> bool {
    field.flags == 9 && field.name == 5 && field.descriptor == 6
}

fn is_the_code(code: &Code) -> bool {
    code.max_stack == 2 && code.max_locals == 1 && has_the_call(code.bytes.as_slice())
}

/// Whether code of 10 bytes has at 6 an `invokevirtual` of the entry 18.
fn has_the_call(bytes: &[u8]) -> bool {
    if bytes.len() != 10 {
        return false;
    }
    match decode(bytes, 6) {
        Ok(call) => {
            call.opcode == 0xb6 && call.length == 3 && matches!(call.operand, Operand::Pool(18))
        }
        Err(_) => false,
    }
}

fn has_the_field(class: &ClassFile) -> bool {
    let fields = class.fields.as_slice();
    fields.len() == 1 && is_the_field(&fields[0])
}

fn has_the_method(class: &ClassFile) -> bool {
    let methods = class.methods.as_slice();
    if methods.len() != 1 {
        return false;
    }
    match &methods[0].code {
        Some(code) => is_the_code(code),
        None => false,
    }
}

#[test]
fn reads_a_field_and_a_method(rt: HostRuntime) {
    let Ok(class) = read_class(rt.alloc(), &OPTION) else {
        panic!(rt; "not read");
    };
    assert!(rt; has_the_field(&class) && has_the_method(&class));
}

fn are_the_entries(entries: &[Entry]) -> bool {
    entries.len() == 5 && matches!(entries[1], Entry::Class(2))
}

#[test]
fn reads_a_pool(rt: HostRuntime) {
    let mut cursor = Cursor::new(&SMALLEST[8..]);
    let Ok(pool) = read_pool(rt.alloc(), &mut cursor) else {
        panic!(rt; "not read");
    };
    assert!(rt; are_the_entries(pool.entries.as_slice()) && cursor.at() == 34);
}

fn is_the_descriptor(descriptor: &Descriptor) -> bool {
    let arguments = descriptor.arguments.as_slice();
    if arguments.len() != 2 {
        return false;
    }
    let second = &arguments[1];
    let are_arguments = arguments[0].base == Base::Long && second.dimensions == 1;
    let is_result = matches!(descriptor.result, Some(item) if item.base == Base::Int);
    are_arguments && second.from == 4 && second.end == 8 && is_result
}

#[test]
fn reads_a_descriptor(rt: HostRuntime) {
    let Ok(descriptor) = read_descriptor(rt.alloc(), b"(J[LMain;)I") else {
        panic!(rt; "not read");
    };
    assert!(rt; is_the_descriptor(&descriptor));
}
