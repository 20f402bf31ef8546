use std::alloc::{AllocError, Global};
use std::test::Fail;
use vx_class::{ClassFile, Code, Method};
use vx_core::core;
use vx_link::LinkFault;
use vx_linker::linkable;
use vx_list::Items;
use vx_model::{Model, read_model};
use vx_pool::{Entry, Pool, Utf8};

const PUBLIC: u16 = 0x0001;

const FINAL: u16 = 0x0010;

const PUBLIC_STATIC: u16 = 0x0009;

/// A class of a folder: its name, its superclass (none where it is empty), and its flags.
type Part = (&'static [u8], &'static [u8], u16);

const OTHER: Part = (b"Other", b"", PUBLIC);

/// Two classes beside the core classes, a model, and the fault with what it names where `Main` is run.
const FOLDERS: [(Part, Part, &[u8], (&[u8], &[u8])); 7] = [
    ((b"Main", b"Other", PUBLIC), OTHER, b"", (b"none", b"")),
    (
        (b"Main", b"", PUBLIC),
        (b"Main", b"", PUBLIC),
        b"",
        (b"twice", b"Main"),
    ),
    (
        (b"Main", b"Gone", PUBLIC),
        OTHER,
        b"",
        (b"no super", b"Main"),
    ),
    (
        (b"Main", b"Last", PUBLIC),
        (b"Last", b"", FINAL),
        b"",
        (b"final super", b"Main"),
    ),
    (
        (b"P", b"Q", PUBLIC),
        (b"Q", b"P", PUBLIC),
        b"",
        (b"cycle", b"P"),
    ),
    (
        (b"Main", b"", PUBLIC),
        OTHER,
        b"option A Main Z",
        (b"no option", b"A"),
    ),
    ((b"Another", b"", PUBLIC), OTHER, b"", (b"no main", b"")),
];

/// An entry of a text, whose length a class file can hold.
fn text(alloc: Global, bytes: &[u8]) -> Result<Entry, AllocError> {
    let bytes = Vec::from_slice(alloc, bytes)?;
    if bytes.len() < 65_536 {
        Ok(Entry::Utf8(Utf8::of(bytes)))
    } else {
        Err(AllocError)
    }
}

fn fill(
    alloc: Global,
    entries: &mut Vec<Entry>,
    name: &[u8],
    superclass: &[u8],
) -> Result<(), AllocError> {
    entries.push(Entry::Unusable)?;
    entries.push(Entry::Class(2))?;
    entries.push(text(alloc, name)?)?;
    entries.push(Entry::Class(4))?;
    entries.push(text(alloc, superclass)?)?;
    entries.push(text(alloc, b"main")?)?;
    entries.push(text(alloc, b"([Ljava/lang/String;)V")?)?;
    Ok(())
}

fn pool(alloc: Global, name: &[u8], superclass: &[u8]) -> Result<Pool, AllocError> {
    let mut entries = Vec::new(alloc);
    fill(alloc, &mut entries, name, superclass)?;
    Ok(Pool {
        entries: Items::of(entries),
    })
}

/// The code that only returns.
fn code(alloc: Global) -> Result<Code, AllocError> {
    let bytes = Vec::from_slice(alloc, &[0xb1])?;
    Ok(Code {
        max_stack: 0,
        max_locals: 1,
        bytes: Items::of(bytes),
        catches: Items::of(Vec::new(alloc)),
    })
}

fn main_method(alloc: Global) -> Result<Items<Method>, AllocError> {
    let code = code(alloc)?;
    let mut methods = Vec::new(alloc);
    methods.push(Method {
        flags: PUBLIC_STATIC,
        name: 5,
        descriptor: 6,
        code: Some(code),
    })?;
    Ok(Items::of(methods))
}

/// A class with a `main`.
fn class(alloc: Global, part: Part) -> Result<ClassFile, AllocError> {
    let (name, superclass, flags) = part;
    let pool = pool(alloc, name, superclass)?;
    let methods = main_method(alloc)?;
    Ok(ClassFile {
        minor: 0,
        major: 51,
        pool,
        flags,
        this_class: 1,
        super_class: if superclass.is_empty() { 0 } else { 3 },
        interfaces: Items::of(Vec::new(alloc)),
        fields: Items::of(Vec::new(alloc)),
        methods,
    })
}

fn two_classes(alloc: Global, first: Part, second: Part) -> Result<Vec<ClassFile>, AllocError> {
    let mut classes = Vec::new(alloc);
    classes.push(class(alloc, first)?)?;
    classes.push(class(alloc, second)?)?;
    Ok(classes)
}

/// The fault of classes beside the core classes, where `Main` is run.
fn fault_of(
    alloc: Global,
    classes: Vec<ClassFile>,
    model: &Model,
) -> Result<Option<LinkFault>, AllocError> {
    let core = core(alloc)?;
    Ok(linkable(alloc, classes, core, model, b"Main").err())
}

/// The words for a fault, and what it names.
fn told(fault: &Option<LinkFault>) -> (&[u8], &[u8]) {
    match fault {
        Some(LinkFault::Twice { class }) => (b"twice", class.bytes()),
        Some(LinkFault::NoSuper { class }) => (b"no super", class.bytes()),
        Some(LinkFault::FinalSuper { class }) => (b"final super", class.bytes()),
        Some(LinkFault::Cycle { class }) => (b"cycle", class.bytes()),
        Some(LinkFault::NoOption { option }) => (b"no option", option.bytes()),
        Some(LinkFault::NoMain) => (b"no main", b""),
        Some(LinkFault::NoMemory) => (b"no memory", b""),
        None => (b"none", b""),
    }
}

/// Whether two classes have this fault.
fn has_fault(
    alloc: Global,
    classes: Vec<ClassFile>,
    options: &[u8],
    expected: (&[u8], &[u8]),
) -> Result<bool, AllocError> {
    let Ok(model) = read_model(alloc, options) else {
        return Ok(false);
    };
    let fault = fault_of(alloc, classes, &model)?;
    let (words, named) = told(&fault);
    Ok(words == expected.0 && named == expected.1)
}

#[test]
fn folders_link_or_have_a_fault(rt: HostRuntime) -> Result<(), Fail> {
    for (first, second, options, expected) in FOLDERS {
        let classes = two_classes(rt.alloc(), first, second)?;
        assert!(rt;
            has_fault(rt.alloc(), classes, options, expected)?,
            "{expected:?}"
        );
    }
    Ok(())
}
