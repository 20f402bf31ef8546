//! Reading class files (JVMS 4.1), from the front to the back.

ghost use Rattle.std.specs.Prelude.{◌≡◌, ◌+◌, ◌<◌, IfOk};
ghost use Rattle.vx_pool.specs.Reading.{Gives, Answers, IsReadAs, items};
ghost use Rattle.vx_class.specs.File.{File};
ghost use Rattle.vx_class.specs.declared.class_file.ClassFile.{ClassFile};
ghost use Rattle.vx_class.specs.Class.{versions_at, checked_pool_at, interface_at, class_at, interfaces_at, head_at, file_at, class_of};

use crate::class_file::ClassFile;
use crate::code::skip_all;
use crate::flags::{INTERFACE, has};
use crate::members::fields;
use crate::methods::methods;
use std::alloc::Global;
use vx_list::Items;
use vx_pool::{
    ClassFault, Cursor, Pool, check_entries, class_text, is_array, is_class, is_usable, read_pool,
    refusal,
};

const MAGIC: u32 = 0xCAFE_BABE;

/// The minor and the major version, behind the magic number.
#[tactic(auto, unfolding(crate::specs::Class::versions_at))]
fn versions(cursor: &mut Cursor) -> Result<(u16, u16), ClassFault>
    ensures { Gives result cursor.new (versions_at cursor.old) }
{
    let at = cursor.at();
    if cursor.u4()? != MAGIC {
        return refusal(at, 1);
    }
    let minor = cursor.u2()?;
    let at = cursor.at();
    let major = cursor.u2()?;
    if !(45..=52).contains(&major) {
        return refusal(at, 2);
    }
    Ok((minor, major))
}

/// The pool, whose entries meet their checks.
#[tactic(auto, unfolding(crate::specs::Class::checked_pool_at))]
fn checked_pool(alloc: Global, cursor: &mut Cursor) -> Result<Pool, ClassFault>
    ensures { Gives result cursor.new (checked_pool_at cursor.old) }
{
    let at = cursor.at();
    let pool = read_pool(alloc, cursor)?;
    let _after = cursor.at();
    check_entries(alloc, &pool, at + 2)?;
    Ok(pool)
}

/// The index of a class.
#[tactic(auto, unfolding(crate::specs::Class::interface_at))]
fn interface(pool: &Pool, cursor: &mut Cursor) -> Result<u16, ClassFault>
    ensures { Gives result cursor.new (interface_at pool.now cursor.old) }
{
    let at = cursor.at();
    let index = cursor.u2()?;
    if !is_usable(pool, index) {
        return refusal(at, 5);
    }
    if !is_class(pool, index) {
        return refusal(at, 6);
    }
    Ok(index)
}

/// The index of a class that is no array.
#[tactic(auto, unfolding(crate::specs::Class::class_at))]
fn class(pool: &Pool, cursor: &mut Cursor) -> Result<u16, ClassFault>
    ensures { Gives result cursor.new (class_at pool.now cursor.old) }
{
    let at = cursor.at();
    let index = interface(pool, cursor)?;
    match class_text(pool, index) {
        Some(name) if is_array(name) => refusal(at, 6),
        _ => Ok(index),
    }
}

fn some_interfaces(
    alloc: Global,
    pool: &Pool,
    count: u16,
    cursor: &mut Cursor,
) -> Result<Items<u16>, ClassFault>
    ensures { Gives result cursor.new (items (interface_at pool.now) count cursor.old) }
{
    let mut interfaces = Vec::new(alloc);
    for _ in 0..count {
        let next = interface(pool, cursor)?;
        interfaces.push(next)?;
    }
    Ok(Items::of(interfaces))
}

#[tactic(auto, unfolding(crate::specs::Class::interfaces_at))]
fn interfaces(alloc: Global, pool: &Pool, cursor: &mut Cursor) -> Result<Items<u16>, ClassFault>
    ensures { Gives result cursor.new (interfaces_at pool.now cursor.old) }
{
    let count = cursor.u2()?;
    some_interfaces(alloc, pool, count, cursor)
}

/// The parts of a class file up to the superclass.
#[derive(Debug, Drop)]
pub struct Head {
    pub minor: u16,
    pub major: u16,
    pub pool: Pool,
    pub flags: u16,
    pub this_class: u16,
    pub super_class: u16,
}

#[tactic(auto, unfolding(crate::specs::Class::head_at))]
fn read_head(alloc: Global, cursor: &mut Cursor) -> Result<Head, ClassFault>
    ensures { Gives result cursor.new (head_at cursor.old) }
{
    let (minor, major) = versions(cursor)?;
    let pool = checked_pool(alloc, cursor)?;
    let flags = cursor.u2()?;
    let this_class = class(&pool, cursor)?;
    let super_class = class(&pool, cursor)?;
    Ok(Head {
        minor,
        major,
        pool,
        flags,
        this_class,
        super_class,
    })
}

/// The parts of a class file, and then nothing.
#[tactic(auto, unfolding(crate::specs::Class::file_at))]
fn file(alloc: Global, cursor: &mut Cursor) -> Result<ClassFile, ClassFault>
    ensures { Gives result cursor.new (file_at cursor.old) }
{
    let head = read_head(alloc, cursor)?;
    let interfaces = interfaces(alloc, &head.pool, cursor)?;
    let fields = fields(alloc, &head.pool, has(head.flags, INTERFACE), cursor)?;
    let methods = methods(alloc, &head.pool, head.major, cursor)?;
    skip_all(&head.pool, cursor)?;
    if !cursor.is_at_end() {
        return refusal(cursor.at(), 13);
    }
    let Head {
        minor,
        major,
        pool,
        flags,
        this_class,
        super_class,
    } = head;
    Ok(ClassFile {
        minor,
        major,
        pool,
        flags,
        this_class,
        super_class,
        interfaces,
        fields,
        methods,
    })
}

#[tactic(auto, unfolding(crate::specs::Class::class_of))]
fn whole(alloc: Global, bytes: &[u8]) -> Result<ClassFile, ClassFault>
    ensures { Answers result (class_of bytes.now) }
{
    let mut cursor = Cursor::new(bytes);
    file(alloc, &mut cursor)
}

/// The class that the bytes of a file hold (JVMS 4, major versions 45 to 52), or the place and the reason of the first
/// check that fails, in the order of `class_of`.
pub fn read_class(alloc: Global, bytes: &[u8]) -> Result<ClassFile, ClassFault>
    ensures exact { Answers result (class_of bytes.now) }
    // The bytes hold the class that is read.
    ensures found { IfOk result (λ c. File bytes.now c) }
    // A class that the bytes hold is read.
    ensures only { (c : ClassFile) → File bytes.now c → IsReadAs c result }
    // They hold one class at most.
    ensures one { (c d : ClassFile) → File bytes.now c → File bytes.now d → c ≡ d }
{
    whole(alloc, bytes)
}
