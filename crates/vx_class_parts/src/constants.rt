//! The constants of a class that is assembled, in the order in which they are first needed.

ghost use Rattle.std.specs.Prelude.{◌≡◌, ◌%◌, ◌≤◌, ◌<◌, ◌++◌, ◌∷◌, fold, option_copied, OnErr, OnOk, IfOk};
ghost use Rattle.std.specs.List.{flat_map, AllByRecursion};
ghost use Rattle.std.specs.Str.{bytes_eq};
ghost use Rattle.vx_pool.specs.Spelling.{IsPool};
ghost use Rattle.vx_class_parts.specs.Constants.{HasRoom, is_same_kind, is_same, with, with_text, with_class, with_literal, with_name_and_type, with_member, with_constant, width, places, in_file, in_file_or_zero, text_entry, member_entry, entry_of, entries_of, pool_of};
ghost use Rattle.vx_class_parts.specs.Keys.{hashed_text};

use crate::table::ConstantTable;
use std::alloc::{AllocError, Global};
use std::hash::{Hash, Hasher};
use vx_list::{GivenUp, Items};
use vx_pool::{Entry, Pool, Utf8};
use vx_value::Name;

/// The kind of a member.
#[derive(Clone, Copy, Debug, PartialEq, Eq)]
pub enum Kind {
    Field,
    Method,
    InterfaceMethod,
}

/// What an entry of the pool says, in place of its indices.
#[derive(Debug, Drop)]
pub enum Constant {
    Text(Name),
    Integer(i32),
    Long(i64),
    Class(Name),
    Literal(Name),
    NameAndType(Name, Name),
    /// A class, a name and a descriptor.
    Member(Kind, Name, Name, Name),
}

impl PartialEq for Constant {
    ghost use Rattle.vx_class_parts.specs.Constants.{is_same};
    ghost use Rattle.vx_class_parts.specs.Keys.{is_same_partial_equivalence};

    ghost eq = { is_same };

    ghost laws = { is_same_partial_equivalence };

    fn eq(&self, other: &Constant) -> bool {
        is_same(self, other)
    }
}

impl Eq for Constant {
    ghost use Rattle.vx_class_parts.specs.Keys.{is_same_equivalence};

    ghost laws = { is_same_equivalence };
}

/// By the tag of its entry (JVMS 4.4), where members share one, and then by its texts or its number.
impl Hash for Constant {
    ghost use Rattle.vx_class_parts.specs.Keys.{hashed, same_hashed};

    ghost hash_input = { hashed };

    ghost respects_eq = { same_hashed };

    fn hash<H: Hasher>(&self, state: &mut H) {
        match self {
            Constant::Text(text) => hash_text(1, text, state),
            Constant::Integer(number) => {
                state.write_u8(3);
                number.hash(state);
            }
            Constant::Long(number) => {
                state.write_u8(5);
                number.hash(state);
            }
            Constant::Class(name) => hash_text(7, name, state),
            Constant::Literal(text) => hash_text(8, text, state),
            Constant::NameAndType(name, descriptor) => {
                hash_text(12, name, state);
                descriptor.bytes().hash(state);
            }
            Constant::Member(_, class, name, descriptor) => {
                hash_text(10, class, state);
                name.bytes().hash(state);
                descriptor.bytes().hash(state);
            }
        }
    }
}

fn hash_text<H: Hasher>(tag: u8, text: &Name, state: &mut H)
    ensures { state.new ≡ fold H.write state.old (hashed_text tag text.now) }
{
    state.write_u8(tag);
    text.bytes().hash(state);
}

fn is_equal(first: &Name, second: &Name) -> bool
    ensures { result ≡ bytes_eq first.now second.now }
{
    first.bytes() == second.bytes()
}

fn is_same_kind(first: Kind, second: Kind) -> bool
    ensures { result ≡ is_same_kind first second }
{
    matches!(
        (first, second),
        (Kind::Field, Kind::Field)
            | (Kind::Method, Kind::Method)
            | (Kind::InterfaceMethod, Kind::InterfaceMethod)
    )
}

/// Whether two constants are one.
fn is_same(first: &Constant, second: &Constant) -> bool
    ensures { result ≡ is_same first.now second.now }
{
    match (first, second) {
        (Constant::Text(a), Constant::Text(b)) => is_equal(a, b),
        (Constant::Integer(a), Constant::Integer(b)) => *a == *b,
        (Constant::Long(a), Constant::Long(b)) => *a == *b,
        (Constant::Class(a), Constant::Class(b)) => is_equal(a, b),
        (Constant::Literal(a), Constant::Literal(b)) => is_equal(a, b),
        (Constant::NameAndType(a, b), Constant::NameAndType(c, d)) => {
            is_equal(a, c) && is_equal(b, d)
        }
        (Constant::Member(k, a, b, c), Constant::Member(l, d, e, f)) => {
            is_same_kind(*k, *l) && is_equal(a, d) && is_equal(b, e) && is_equal(c, f)
        }
        _ => false,
    }
}

/// A text behind the others, unless it is there. Want of memory leaves them as they were.
pub fn put_text(alloc: Global, pool: &mut ConstantTable, text: &[u8]) -> Result<(), AllocError>
    ensures ok { OnOk result (pool.new ≡ with_text pool.old text.now) }
    ensures err { OnErr result (pool.new ≡ pool.old) }
{
    pool.put(Constant::Text(Name::of(alloc, text)?))
}

fn put_number(pool: &mut ConstantTable, number: i32) -> Result<(), GivenUp>
    ensures { OnOk result (pool.new ≡ with pool.old (Constant.Integer number)) }
{
    Ok(pool.put(Constant::Integer(number))?)
}

fn put_long(pool: &mut ConstantTable, number: i64) -> Result<(), GivenUp>
    ensures { OnOk result (pool.new ≡ with pool.old (Constant.Long number)) }
{
    Ok(pool.put(Constant::Long(number))?)
}

/// A class and its name behind the others, unless they are there.
pub fn put_class(alloc: Global, pool: &mut ConstantTable, name: &[u8]) -> Result<(), GivenUp>
    ensures { OnOk result (pool.new ≡ with_class pool.old name.now) }
{
    pool.put(Constant::Class(Name::of(alloc, name)?))?;
    Ok(put_text(alloc, pool, name)?)
}

fn put_literal(alloc: Global, pool: &mut ConstantTable, text: &[u8]) -> Result<(), GivenUp>
    ensures { OnOk result (pool.new ≡ with_literal pool.old text.now) }
{
    pool.put(Constant::Literal(Name::of(alloc, text)?))?;
    Ok(put_text(alloc, pool, text)?)
}

fn put_name_and_type(
    alloc: Global,
    pool: &mut ConstantTable,
    name: &[u8],
    descriptor: &[u8],
) -> Result<(), GivenUp>
    ensures { OnOk result (pool.new ≡ with_name_and_type pool.old name.now descriptor.now) }
{
    let first = Name::of(alloc, name)?;
    let second = Name::of(alloc, descriptor)?;
    pool.put(Constant::NameAndType(first, second))?;
    put_text(alloc, pool, name)?;
    Ok(put_text(alloc, pool, descriptor)?)
}

fn put_member(
    alloc: Global,
    pool: &mut ConstantTable,
    kind: Kind,
    class: &[u8],
    name: &[u8],
    descriptor: &[u8],
) -> Result<(), GivenUp>
    ensures { OnOk result (pool.new ≡ with_member pool.old kind class.now name.now descriptor.now) }
{
    let first = Name::of(alloc, class)?;
    let second = Name::of(alloc, name)?;
    let third = Name::of(alloc, descriptor)?;
    pool.put(Constant::Member(kind, first, second, third))?;
    put_class(alloc, pool, class)?;
    put_name_and_type(alloc, pool, name, descriptor)
}

/// How many places a constant takes.
pub(crate) fn width(constant: &Constant) -> u8
    ensures value { result ≡ width constant.now }
    ensures few { result ≤ 2 }
{
    match constant {
        Constant::Long(_) => 2,
        _ => 1,
    }
}

/// The index of a constant as it stands in the file.
fn in_file(pool: &ConstantTable, constant: &Constant) -> u16
    ensures { result ≡ in_file pool.now constant.now }
{
    (pool.index_of(constant) % 65_536) as u16
}

/// The index of a constant as it stands in the file, or 0 where there is no constant.
pub fn in_file_or_zero(pool: &ConstantTable, constant: Option<&Constant>) -> u16
    ensures { result ≡ in_file_or_zero pool.now (option_copied constant.entry) }
{
    match constant {
        None => 0,
        Some(constant) => in_file(pool, constant),
    }
}

fn text_entry(alloc: Global, text: &[u8]) -> Result<Entry, AllocError>
    ensures { IfOk result (λ e. e ≡ text_entry text.now) }
{
    if text.len() < 65_536 {
        Ok(Entry::Utf8(Utf8::of(Vec::from_slice(alloc, text)?)))
    } else {
        Ok(Entry::Unusable)
    }
}

fn member_entry(kind: Kind, class: u16, name: u16) -> Entry
    ensures { result ≡ member_entry kind class name }
{
    match kind {
        Kind::Field => Entry::Field(class, name),
        Kind::Method => Entry::Method(class, name),
        Kind::InterfaceMethod => Entry::InterfaceMethod(class, name),
    }
}

/// The index of a text, as it stands in the file.
pub fn text_index(alloc: Global, pool: &ConstantTable, text: &[u8]) -> Result<u16, AllocError>
    ensures { IfOk result (λ i. i ≡ in_file pool.now (Constant.Text text.now)) }
{
    let constant = Constant::Text(Name::of(alloc, text)?);
    Ok(in_file(pool, &constant))
}

/// The index of a class, as it stands in the file.
pub fn class_index(alloc: Global, pool: &ConstantTable, name: &[u8]) -> Result<u16, AllocError>
    ensures { IfOk result (λ i. i ≡ in_file pool.now (Constant.Class name.now)) }
{
    let constant = Constant::Class(Name::of(alloc, name)?);
    Ok(in_file(pool, &constant))
}

fn name_and_type_index(
    alloc: Global,
    pool: &ConstantTable,
    name: &[u8],
    descriptor: &[u8],
) -> Result<u16, AllocError>
    ensures { IfOk result (λ i. i ≡ in_file pool.now (Constant.NameAndType name.now descriptor.now)) }
{
    let first = Name::of(alloc, name)?;
    let second = Name::of(alloc, descriptor)?;
    let constant = Constant::NameAndType(first, second);
    Ok(in_file(pool, &constant))
}

/// The entry of a constant, whose parts have their indices.
fn entry_of(alloc: Global, pool: &ConstantTable, constant: &Constant) -> Result<Entry, AllocError>
    ensures { IfOk result (λ e. e ≡ entry_of pool.now constant.now) }
{
    match constant {
        Constant::Text(text) => text_entry(alloc, text.bytes()),
        Constant::Integer(number) => Ok(Entry::Integer(*number)),
        Constant::Long(number) => Ok(Entry::Long(*number)),
        Constant::Class(name) => Ok(Entry::Class(text_index(alloc, pool, name.bytes())?)),
        Constant::Literal(text) => Ok(Entry::Text(text_index(alloc, pool, text.bytes())?)),
        Constant::NameAndType(name, descriptor) => Ok(Entry::NameAndType(
            text_index(alloc, pool, name.bytes())?,
            text_index(alloc, pool, descriptor.bytes())?,
        )),
        Constant::Member(kind, class, name, descriptor) => Ok(member_entry(
            *kind,
            class_index(alloc, pool, class.bytes())?,
            name_and_type_index(alloc, pool, name.bytes(), descriptor.bytes())?,
        )),
    }
}

/// The places of a constant behind those that are there.
fn put_entries(
    alloc: Global,
    entries: &mut Vec<Entry>,
    pool: &ConstantTable,
    constant: &Constant,
) -> Result<(), AllocError>
    ensures { OnOk result (entries.new.items ≡ entries.old.items ++ entries_of pool.now constant.now) }
{
    entries.push(entry_of(alloc, pool, constant)?)?;
    if width(constant) > 1 {
        entries.push(Entry::Unusable)?;
    }
    Ok(())
}

fn all_entries(alloc: Global, pool: &ConstantTable) -> Result<Vec<Entry>, AllocError>
    ensures { IfOk result (λ v. v.items ≡ Entry.Unusable ∷ flat_map (entries_of pool.now) pool.now) }
{
    let mut entries = Vec::new(alloc);
    entries.push(Entry::Unusable)?;
    for constant in pool.as_slice() {
        put_entries(alloc, &mut entries, pool, constant)?;
    }
    Ok(entries)
}

/// The pool of a class file.
#[tactic(auto, using(crate::proofs::Placed::is_pool))]
pub fn pool_of(alloc: Global, pool: &ConstantTable) -> Result<Pool, AllocError>
    ensures value { IfOk result (λ p. p ≡ pool_of pool.now) }
    // Where entries can say the constants, and there are at most 65,535 places, it is a pool that a reading can give.
    ensures read { AllByRecursion HasRoom pool.now → places pool.now < 65536 → IfOk result (λ p. IsPool p) }
{
    Ok(Pool {
        entries: Items::of(all_entries(alloc, pool)?),
    })
}

/// A constant with what it refers to, behind the others.
pub fn put_constant(
    alloc: Global,
    pool: &mut ConstantTable,
    constant: &Constant,
) -> Result<(), GivenUp>
    ensures { OnOk result (pool.new ≡ with_constant pool.old constant.now) }
{
    match constant {
        Constant::Text(text) => Ok(put_text(alloc, pool, text.bytes())?),
        Constant::Integer(number) => put_number(pool, *number),
        Constant::Long(number) => put_long(pool, *number),
        Constant::Class(name) => put_class(alloc, pool, name.bytes()),
        Constant::Literal(text) => put_literal(alloc, pool, text.bytes()),
        Constant::NameAndType(name, descriptor) => {
            put_name_and_type(alloc, pool, name.bytes(), descriptor.bytes())
        }
        Constant::Member(kind, class, name, descriptor) => put_member(
            alloc,
            pool,
            *kind,
            class.bytes(),
            name.bytes(),
            descriptor.bytes(),
        ),
    }
}
