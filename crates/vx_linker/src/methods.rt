//! The methods of a program, from those of class files.

ghost use Rattle.std.specs.Prelude.{◌≡◌, ◌<◌, ◌++◌, drop, length, IfOk, IfSome, OnErr, OnOk, unwrap_or};
ghost use Rattle.vx_list.specs.Places.{item_or};
ghost use Rattle.vx_link.specs.Linked.{is_clinit_file, own_clinit, method_flags, linked_method, linked_methods, empty_clinit};
ghost use Rattle.vx_linker.specs.Texts.{AreTexts};

use crate::shared_texts::SharedTexts;
use std::alloc::{AllocError, Global};
use vx_class::{ClassFile, Code, Method, STATIC};
use vx_desc::is_clinit;
use vx_link::class_names::utf8;
use vx_link::{AccessFlags, LinkedMethod, SharedName};
use vx_list::Items;
use vx_pool::Pool;
use vx_value::ClassId;

const CLINIT: &[u8] = b"<clinit>";

const NOTHING: &[u8] = b"()V";

const RETURN: u8 = 0xb1;

const NEITHER_ABSTRACT_NOR_NATIVE: u16 = 0xfaff;

fn is_initialiser(class: &ClassFile, method: &Method) -> bool
    ensures { result ≡ is_clinit_file class.now method.now }
{
    is_clinit(utf8(&class.pool, method.name))
}

/// The place of a class's own `<clinit>` among its methods.
pub fn own_initialiser(class: &ClassFile) -> Option<usize>
    ensures place { result ≡ own_clinit class.now }
    ensures within { IfSome result (λ place. place < length class.now.methods) }
{
    let methods = class.methods.as_slice();
    methods
        .iter()
        .position(|method| is_initialiser(class, method))
}

/// The flags of a method. A `<clinit>` is static, and neither abstract nor native, whatever its flags (JVMS 2.9, 4.6).
fn method_flags(name: &[u8], flags: u16) -> AccessFlags
    ensures { result.0 ≡ method_flags name.now flags }
{
    if is_clinit(name) {
        AccessFlags(flags & NEITHER_ABSTRACT_NOR_NATIVE | STATIC)
    } else {
        AccessFlags(flags)
    }
}

fn linked_method(
    alloc: Global,
    class: ClassId,
    pool: &Pool,
    texts: &mut SharedTexts,
    method: Method,
    native: u32,
) -> Result<LinkedMethod, AllocError>
    requires { AreTexts pool.now texts.old.known.items }
    ensures linked { IfOk result (λ linked. linked ≡ linked_method class.0 pool.now method native) }
    ensures texts { AreTexts pool.now texts.new.known.items }
{
    Ok(LinkedMethod {
        class,
        name: texts.text(alloc, pool, method.name)?,
        descriptor: texts.text(alloc, pool, method.descriptor)?,
        flags: method_flags(utf8(pool, method.name), method.flags),
        code: method.code,
        native,
    })
}

/// The first number, or 0 where there is none.
pub fn first_number(numbers: &[u32]) -> u32
    ensures { result ≡ item_or numbers.now 0 0 }
{
    numbers.first().copied().unwrap_or(0)
}

/// What stands behind the first item.
pub fn behind_first<T>(items: &[T]) -> &[T]
    ensures { result.now ≡ drop 1 items.now }
{
    if items.is_empty() { items } else { &items[1..] }
}

/// The methods of a class file, with the numbers of the native ones.
fn linked_methods(
    alloc: Global,
    class: ClassId,
    pool: &Pool,
    methods: Vec<Method>,
    natives: &[u32],
) -> Result<Vec<LinkedMethod>, AllocError>
    ensures { IfOk result (λ linked. linked.items ≡ linked_methods class.0 pool.now methods.items natives.now) }
{
    let mut linked = Vec::new(alloc);
    if methods.is_empty() {
        return Ok(linked);
    }
    let mut texts = SharedTexts::none(alloc, pool)?;
    let mut numbers = natives;
    for method in methods {
        let native = first_number(numbers);
        linked.push(linked_method(alloc, class, pool, &mut texts, method, native)?)?;
        numbers = behind_first(numbers);
    }
    Ok(linked)
}

/// Puts the methods of a class file behind others, with the numbers of the native ones. Want of memory leaves the others as they were.
pub fn add_methods(
    alloc: Global,
    class: ClassId,
    pool: &Pool,
    methods: Vec<Method>,
    natives: &[u32],
    linked: &mut Vec<LinkedMethod>,
) -> Result<(), AllocError>
    ensures ok { OnOk result (linked.new.items ≡ linked.old.items ++ linked_methods class.0 pool.now methods.items natives.now) }
    ensures err { OnErr result (linked.new.items ≡ linked.old.items) }
{
    let mut methods = linked_methods(alloc, class, pool, methods, natives)?;
    linked.append(&mut methods)
}

/// The method of a class without `<clinit>`, whose code is one `return`.
pub fn empty_initialiser(alloc: Global, class: ClassId) -> Result<LinkedMethod, AllocError>
    ensures { IfOk result (λ linked. linked ≡ empty_clinit class.0) }
{
    let code = Code {
        max_stack: 0,
        max_locals: 0,
        bytes: Items::of(Vec::from_slice(alloc, &[RETURN])?),
        catches: Items::of(Vec::new(alloc)),
    };
    Ok(LinkedMethod {
        class,
        name: SharedName::of(alloc, CLINIT)?,
        descriptor: SharedName::of(alloc, NOTHING)?,
        flags: AccessFlags(STATIC),
        code: Some(code),
        native: 0,
    })
}
