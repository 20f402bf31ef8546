//! The class files of the workload.

ghost use Rattle.std.specs.Prelude.{◌≡◌, ◌+◌, ◌-◌, ◌*◌, ◌≤◌, ◌<◌, ◌^◌, ◌++◌, ◌∷◌, [], IfOk, List, OnOk, codes, flat_map, length};
ghost use Rattle.vx_link.specs.Written.{Item, item_bytes};
ghost use Rattle.vx_gen.specs.Workload.{Text, Texts, main_class, main_items, step_class, stepping_class, work_file};
ghost use Rattle.vx_gen.specs.Parts.{AreNames, AreShort, code_part, coded_method, field_list, file_of, fixed_parts, head_part, main_entries, stepping_entries, stepping_methods};

use crate::code::main_bytes;
use crate::pool::{Kind, put_class, put_fields, put_options, put_reference, put_signature};
use std::alloc::{AllocError, Global};
use vx_class::{ClassFile, Code, Field, Method};
use vx_list::Items;
use vx_pool::{Entry, Pool, Utf8};

/// The first entries of the pool of a class below Object.
fn head(alloc: Global, name: &str) -> Result<Vec<Entry>, AllocError>
    requires { length name.now < 2 ^ 16 }
    ensures { IfOk result (λ pool. pool.items ≡ head_part name.now) }
{
    let mut pool = Vec::new(alloc);
    pool.push(Entry::Unusable)?;
    put_class(alloc, &mut pool, 1, name)?;
    put_class(alloc, &mut pool, 3, "java/lang/Object")?;
    Ok(pool)
}

/// A pool, with the name of the attribute that holds code at its end.
fn closed(alloc: Global, entries: Vec<Entry>) -> Result<Pool, AllocError>
    ensures { IfOk result (λ pool. pool ≡ record { entries = entries.items ++ code_part }) }
{
    let mut all = entries;
    let name = Vec::from_slice(alloc, b"Code")?;
    all.push(Entry::Utf8(Utf8::of(name)))?;
    Ok(Pool {
        entries: Items::of(all),
    })
}

/// A method with code, whose descriptor stands behind its name.
fn coded(
    alloc: Global,
    flags: u16,
    name: u16,
    max_stack: u16,
    max_locals: u16,
    bytes: Vec<u8>,
) -> Method
    requires { name < 65535 }
    ensures { result ≡ coded_method flags name max_stack max_locals bytes.items }
{
    Method {
        flags,
        name,
        descriptor: name + 1,
        code: Some(Code {
            max_stack,
            max_locals,
            bytes: Items::of(bytes),
            catches: Items::of(Vec::new(alloc)),
        }),
    }
}

/// The class file of a class below Object, whose pool begins with the names of both.
fn file_of(
    flags: u16,
    pool: Pool,
    interfaces: Vec<u16>,
    fields: Vec<Field>,
    methods: Vec<Method>,
) -> ClassFile
    ensures { result ≡ file_of flags pool interfaces.items fields.items methods.items }
{
    ClassFile {
        minor: 0,
        major: 51,
        pool,
        flags,
        this_class: 1,
        super_class: 3,
        interfaces: Items::of(interfaces),
        fields: Items::of(fields),
        methods: Items::of(methods),
    }
}

/// The interface with the step.
pub fn step_file(alloc: Global) -> Result<ClassFile, AllocError>
    ensures { IfOk result (λ file. file ≡ work_file step_class) }
{
    let mut entries = head(alloc, "Step")?;
    put_signature(alloc, &mut entries, "f", "(II)I")?;
    let pool = closed(alloc, entries)?;
    let mut methods = Vec::new(alloc);
    methods.push(Method {
        flags: 0x0401,
        name: 5,
        descriptor: 6,
        code: None,
    })?;
    Ok(file_of(0x0601, pool, Vec::new(alloc), Vec::new(alloc), methods))
}

/// The pool of a class that implements the step.
fn stepping_pool(alloc: Global, name: &str) -> Result<Pool, AllocError>
    requires { length name.now < 2 ^ 16 }
    ensures { IfOk result (λ pool. pool ≡ record { entries = stepping_entries name.now }) }
{
    let mut entries = head(alloc, name)?;
    put_class(alloc, &mut entries, 5, "Step")?;
    put_signature(alloc, &mut entries, "<init>", "()V")?;
    put_signature(alloc, &mut entries, "f", "(II)I")?;
    put_reference(
        alloc,
        &mut entries,
        11,
        Kind::Method,
        "java/lang/Object",
        "<init>",
        "()V",
    )?;
    let pool = closed(alloc, entries)?;
    Ok(pool)
}

/// The methods of a class that implements the step by this code.
fn stepping_methods(alloc: Global, code: &[u8]) -> Result<Vec<Method>, AllocError>
    ensures { IfOk result (λ methods. methods.items ≡ stepping_methods code.now) }
{
    let constructor = Vec::from_slice(alloc, &[0x2a, 0xb7, 0, 11, 0xb1])?;
    let step = Vec::from_slice(alloc, code)?;
    let mut methods = Vec::new(alloc);
    methods.push(coded(alloc, 0x0001, 7, 1, 1, constructor))?;
    methods.push(coded(alloc, 0x0001, 9, 2, 3, step))?;
    Ok(methods)
}

/// A class that implements the step by this code.
pub fn stepping_file(alloc: Global, name: &str, code: &[u8]) -> Result<ClassFile, AllocError>
    requires { length name.now < 2 ^ 16 }
    ensures { IfOk result (λ file. (text : Text) (items : List Item) → name.now ≡ codes text → code.now ≡ flat_map (item_bytes 11) items →
        file ≡ work_file (stepping_class text items)) }
{
    let pool = stepping_pool(alloc, name)?;
    let methods = stepping_methods(alloc, code)?;
    let mut interfaces = Vec::new(alloc);
    interfaces.push(5)?;
    Ok(file_of(0x0021, pool, interfaces, Vec::new(alloc), methods))
}

/// Puts the references of main before those of its options.
fn put_fixed(alloc: Global, pool: &mut Vec<Entry>, at: u16) -> Result<(), AllocError>
    requires { at < 60000 }
    ensures { OnOk result (pool.new.items ≡ pool.old.items ++ fixed_parts at) }
{
    put_reference(alloc, pool, at, Kind::Method, "Keep", "<init>", "()V")?;
    put_reference(alloc, pool, at + 6, Kind::Method, "Turn", "<init>", "()V")?;
    put_reference(
        alloc,
        pool,
        at + 12,
        Kind::InterfaceMethod,
        "Step",
        "f",
        "(II)I",
    )?;
    put_reference(
        alloc,
        pool,
        at + 18,
        Kind::Field,
        "java/lang/System",
        "out",
        "Ljava/io/PrintStream;",
    )?;
    put_reference(
        alloc,
        pool,
        at + 24,
        Kind::Method,
        "java/io/PrintStream",
        "println",
        "(I)V",
    )?;
    Ok(())
}

/// The pool of Main, whose references begin at an index.
fn main_pool(alloc: Global, at: u16, names: &[&str]) -> Result<Pool, AllocError>
    requires short { AreShort names.now }
    requires fits { at + 30 + 6 * length names.now < 60000 }
    ensures { IfOk result (λ pool. pool ≡ record { entries = main_entries at names.now }) }
{
    let mut entries = head(alloc, "Main")?;
    put_fields(alloc, &mut entries, names)?;
    put_signature(alloc, &mut entries, "main", "([Ljava/lang/String;)V")?;
    put_fixed(alloc, &mut entries, at)?;
    put_options(alloc, &mut entries, at + 30, names)?;
    let pool = closed(alloc, entries)?;
    Ok(pool)
}

/// The fields of the options.
fn main_fields(alloc: Global, names: &[&str]) -> Result<Vec<Field>, AllocError>
    requires { length names.now ≤ 64 }
    ensures { IfOk result (λ fields. fields.items ≡ field_list 5 names.now) }
{
    let mut fields = Vec::new(alloc);
    let mut index = 5;
    for _name in names {
        fields.push(Field {
            flags: 0x0009,
            name: index,
            descriptor: index + 1,
            constant: 0,
        })?;
        index += 2;
    }
    Ok(fields)
}

/// The main of Main, where the references begin at an index, behind its name and descriptor.
fn main_methods(
    alloc: Global,
    at: u16,
    seed: u64,
    names: &[&str],
) -> Result<Vec<Method>, AllocError>
    requires least { 2 ≤ at }
    requires fits { at + 6 * length names.now < 50000 }
    ensures { IfOk result (λ methods. methods.items ≡ coded_method 0x0009 (at - 2) 6 4 (flat_map (item_bytes at) (main_items at seed names.now)) ∷ []) }
{
    let bytes = main_bytes(alloc, at, seed, names)?;
    let mut methods = Vec::new(alloc);
    methods.push(coded(alloc, 0x0009, at - 2, 6, 4, bytes))?;
    Ok(methods)
}

/// The class whose main lets its options step.
pub fn main_file(alloc: Global, seed: u64, names: &[&str]) -> Result<ClassFile, AllocError>
    requires short { AreShort names.now }
    requires few { length names.now ≤ 64 }
    ensures { IfOk result (λ file. (texts : Texts) → AreNames names.now texts → file ≡ work_file (main_class seed texts)) }
{
    let at = 7 + 2 * names.len() as u16;
    let pool = main_pool(alloc, at, names)?;
    let fields = main_fields(alloc, names)?;
    let methods = main_methods(alloc, at, seed, names)?;
    Ok(file_of(0x0021, pool, Vec::new(alloc), fields, methods))
}
