//! Reading the constant pool (JVMS 4.4): a count, and behind it the entries from index 1 on, each behind its tag.

ghost use Rattle.std.specs.Prelude.{◌≡◌, ◌+◌, ◌-◌, ◌<◌, ℕ, List, [], ◌∷◌, ◌++◌, false, sum_by, IfOk, OnErr};
ghost use Rattle.vx_pool.specs.Reading.{Gives, with_front, IsReadAs};
ghost use Rattle.vx_pool.specs.Place.{IsBytes};
ghost use Rattle.vx_pool.specs.Spelling.{pool_bytes, IsPool};
ghost use Rattle.vx_pool.specs.Took.{Took};
ghost use Rattle.vx_pool.specs.declared.pool.Pool.{Pool};
ghost use Rattle.vx_pool.specs.declared.pool.Entry.TheVariants.{Unusable};
ghost use Rattle.vx_pool.specs.Pool.{size, text_at, one_at, two_at, wide_at, body_at, entry_at, is_wide, entries_at, pool_at};

use crate::modified_utf8::is_text;
use crate::pool::{Entry, Pool};
use crate::utf8::Utf8;
use crate::{ClassFault, Cursor, refusal};
use std::alloc::Global;
use vx_list::Items;

#[tactic(auto, unfolding(crate::specs::Pool::text_at))]
fn text(alloc: Global, tag: u64, cursor: &mut Cursor) -> Result<Entry, ClassFault>
    ensures value { Gives result cursor.new (text_at tag cursor.old) }
    ensures moved { IfOk result (λ e. cursor.new.at + 1 ≡ cursor.old.at + size e) }
{
    let len = cursor.u2()?;
    let bytes = cursor.take(len as usize)?;
    if is_text(bytes) {
        Ok(Entry::Utf8(Utf8::of(Vec::from_slice(alloc, bytes)?)))
    } else {
        refusal(tag, 7)
    }
}

#[tactic(auto, unfolding(crate::specs::Pool::body_at, crate::specs::Pool::one_at, crate::specs::Pool::two_at, crate::specs::Pool::wide_at))]
fn body(
    alloc: Global,
    behind: u16,
    tag: u64,
    kind: u8,
    cursor: &mut Cursor,
) -> Result<Entry, ClassFault>
    ensures value { Gives result cursor.new (body_at behind tag kind cursor.old) }
    ensures moved { IfOk result (λ e. cursor.new.at + 1 ≡ cursor.old.at + size e) }
{
    match kind {
        1 => text(alloc, tag, cursor),
        3 => Ok(Entry::Integer(cursor.u4()?.cast_signed())),
        4 => Ok(Entry::Float(cursor.u4()?)),
        5 | 6 if behind == 0 => refusal(tag, 5),
        5 => Ok(Entry::Long(cursor.u8()?.cast_signed())),
        6 => Ok(Entry::Double(cursor.u8()?)),
        7 => Ok(Entry::Class(cursor.u2()?)),
        8 => Ok(Entry::Text(cursor.u2()?)),
        9 => Ok(Entry::Field(cursor.u2()?, cursor.u2()?)),
        10 => Ok(Entry::Method(cursor.u2()?, cursor.u2()?)),
        11 => Ok(Entry::InterfaceMethod(cursor.u2()?, cursor.u2()?)),
        12 => Ok(Entry::NameAndType(cursor.u2()?, cursor.u2()?)),
        15 => Ok(Entry::MethodHandle(cursor.u1()?, cursor.u2()?)),
        16 => Ok(Entry::MethodType(cursor.u2()?)),
        18 => Ok(Entry::InvokeDynamic(cursor.u2()?, cursor.u2()?)),
        _ => refusal(tag, 4),
    }
}

#[tactic(auto, unfolding(crate::specs::Pool::entry_at))]
fn entry(alloc: Global, behind: u16, cursor: &mut Cursor) -> Result<Entry, ClassFault>
    ensures value { Gives result cursor.new (entry_at behind cursor.old) }
    ensures moved { IfOk result (λ e. cursor.new.at ≡ cursor.old.at + size e) }
{
    let tag = cursor.at();
    let kind = cursor.u1()?;
    let entry = body(alloc, behind, tag, kind, cursor)?;
    Ok(entry)
}

/// Whether an entry takes two indices.
fn is_wide(entry: &Entry) -> bool
    ensures { result ≡ is_wide entry.now }
{
    matches!(entry, Entry::Long(_) | Entry::Double(_))
}

/// The entries of so many indices, behind the place 0.
fn entries(alloc: Global, count: u16, cursor: &mut Cursor) -> Result<Items<Entry>, ClassFault>
    ensures value { Gives result cursor.new (with_front (Unusable ∷ []) (entries_at count false cursor.old)) }
    ensures moved { IfOk result (λ es. cursor.new.at ≡ cursor.old.at + sum_by size es) }
{
    let mut items = Vec::new(alloc);
    items.push(Entry::Unusable)?;
    let mut left = count;
    let mut second = false;
    while left > 0 {
        left -= 1;
        if second {
            items.push(Entry::Unusable)?;
            second = false;
        } else {
            let item = entry(alloc, left, cursor)?;
            second = is_wide(&item);
            items.push(item)?;
        }
    }
    Ok(Items::of(items))
}

#[tactic(auto, unfolding(crate::specs::Pool::pool_at))]
fn pool(alloc: Global, cursor: &mut Cursor) -> Result<Pool, ClassFault>
    ensures value { Gives result cursor.new (pool_at cursor.old) }
    ensures moved { IfOk result (λ p. cursor.new.at ≡ cursor.old.at + (2 + sum_by size p.entries)) }
{
    let at = cursor.at();
    let count = cursor.u2()?;
    if count == 0 {
        return refusal(at, 5);
    }
    let entries = entries(alloc, count - 1, cursor)?;
    Ok(Pool { entries })
}

/// Bytes are numbers below 256.
fn are_bytes(bytes: &[u8])
    ensures { IsBytes bytes.now }
{
    let _len = bytes.len();
}

/// The pool that stands at the cursor, which moves behind it. What the entries name is not judged here. A refusal has
/// reason 3 at the file's length, 4 at an unknown tag, 5 at a count of 0 or at a `Long` or `Double` of the last index, and
/// 7 at the tag of a text that is no modified UTF-8.
pub fn read_pool(alloc: Global, cursor: &mut Cursor) -> Result<Pool, ClassFault>
    ensures value { Gives result cursor.new (pool_at cursor.old) }
    // The bytes that were read are those of a pool, each of them.
    ensures found { IfOk result (λ p. IsPool p × Took cursor.old (pool_bytes p) cursor.new) }
    // What is spelled so is read, unless memory runs out.
    ensures only { (p : Pool) (rest : List ℕ) → IsPool p → cursor.old.rest ≡ pool_bytes p ++ rest → IsReadAs p result }
    // The entries fill the bytes that were read.
    ensures moved { IfOk result (λ p. cursor.new.at ≡ cursor.old.at + (2 + sum_by size p.entries)) }
    // After a refusal the cursor stands where it stood.
    ensures after { OnErr result (cursor.new ≡ cursor.old) }
{
    are_bytes(cursor.rest());
    let mut ahead = cursor.copy();
    let pool = pool(alloc, &mut ahead)?;
    *cursor = ahead;
    Ok(pool)
}
