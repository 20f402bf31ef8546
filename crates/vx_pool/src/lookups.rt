//! What an index of the pool names (JVMS 4.4), where it names an entry of the kind that is asked for.

ghost use Rattle.std.specs.Prelude.{◌≡◌, ◌^◌, ◌<◌, ◌==◌, length, is_some, IfSome, Some};
ghost use Rattle.std.specs.Option.{option_copied};
ghost use Rattle.vx_pool.specs.Lookups.{entry_of, is_usable, class, name_and_type, text, class_text, member_name, member_descriptor, is_array, is_class_text};

use crate::{Entry, Pool};
use vx_desc::{is_class_name, is_field_descriptor};

/// The entry of an index, or `None` past the last one.
pub fn entry_of(pool: &Pool, index: u16) -> Option<&Entry>
    ensures { option_copied result ≡ entry_of pool.now index }
{
    pool.entries.as_slice().get(index as usize)
}

/// Whether an index is in the pool and usable: neither 0 nor the second one of a `Long` or `Double`.
pub fn is_usable(pool: &Pool, index: u16) -> bool
    ensures { result ≡ is_usable (entry_of pool.now index) }
{
    !matches!(entry_of(pool, index), None | Some(Entry::Unusable))
}

/// Whether an index names a class entry.
pub fn is_class(pool: &Pool, index: u16) -> bool
    ensures { result ≡ is_some (class (entry_of pool.now index)) }
{
    matches!(entry_of(pool, index), Some(Entry::Class(_)))
}

/// Whether an index names a name and type.
pub fn is_name_and_type(pool: &Pool, index: u16) -> bool
    ensures { result ≡ is_some (name_and_type (entry_of pool.now index)) }
{
    matches!(entry_of(pool, index), Some(Entry::NameAndType(_, _)))
}

/// The name and the descriptor that an index names.
pub fn name_and_type(pool: &Pool, index: u16) -> Option<(u16, u16)>
    ensures { result ≡ name_and_type (entry_of pool.now index) }
{
    match entry_of(pool, index) {
        Some(Entry::NameAndType(name, descriptor)) => Some((*name, *descriptor)),
        _ => None,
    }
}

/// The text of an index.
pub fn text(pool: &Pool, index: u16) -> Option<&[u8]>
    ensures value { option_copied result ≡ text pool.now index }
    ensures few { IfSome result (λ t. length t.now < 2 ^ 16) }
{
    match entry_of(pool, index) {
        Some(Entry::Utf8(text)) => Some(text.as_slice()),
        _ => None,
    }
}

/// The text that a class entry names.
pub fn class_text(pool: &Pool, index: u16) -> Option<&[u8]>
    ensures value { option_copied result ≡ class_text pool.now index }
    ensures few { IfSome result (λ t. length t.now < 2 ^ 16) }
{
    match entry_of(pool, index) {
        Some(Entry::Class(name)) => text(pool, *name),
        _ => None,
    }
}

/// The name of a name and type.
pub fn member_name(pool: &Pool, index: u16) -> Option<&[u8]>
    ensures value { option_copied result ≡ member_name pool.now index }
    ensures few { IfSome result (λ t. length t.now < 2 ^ 16) }
{
    match entry_of(pool, index) {
        Some(Entry::NameAndType(name, _)) => text(pool, *name),
        _ => None,
    }
}

/// The descriptor of a name and type.
pub fn member_descriptor(pool: &Pool, index: u16) -> Option<&[u8]>
    ensures value { option_copied result ≡ member_descriptor pool.now index }
    ensures few { IfSome result (λ t. length t.now < 2 ^ 16) }
{
    match entry_of(pool, index) {
        Some(Entry::NameAndType(_, descriptor)) => text(pool, *descriptor),
        _ => None,
    }
}

/// Whether the text of a class entry is the descriptor of an array.
pub fn is_array(name: &[u8]) -> bool
    ensures { result ≡ is_array name.now }
{
    name.first() == Some(&b'[')
}

/// Whether a text is the name of a class, or the descriptor of an array.
pub fn is_class_text(name: &[u8]) -> bool
    requires { length name.now < 2 ^ 16 }
    ensures { result ≡ is_class_text name.now }
{
    if is_array(name) {
        is_field_descriptor(name)
    } else {
        is_class_name(name)
    }
}
