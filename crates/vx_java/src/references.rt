//! What a Fieldref, a Methodref or an InterfaceMethodref of a pool names (JVMS 4.4.2).

ghost use Rattle.std.specs.Option.{option_copied};
ghost use Rattle.std.specs.Prelude.{◌≡◌, ◌<◌, ◌^◌, length};
ghost use Rattle.vx_java.specs.Named.{in_bytes};
ghost use Rattle.vx_link.specs.Names.{member, member_named, member_of};

use vx_pool::{Entry, Pool, class_text, entry_of, member_descriptor, member_name};

/// A field or a method as an entry of a pool names it.
#[derive(Clone, Copy)]
pub struct MemberReference<'a> {
    /// The class that is named, or the descriptor of an array.
    pub class: &'a [u8],
    pub name: &'a [u8],
    pub descriptor: &'a [u8],
    /// Whether an InterfaceMethodref names it.
    pub by_interface: bool,
}

fn member_of(pool: &Pool, class: u16, typed: u16, by_interface: bool) -> MemberReference<'_>
    ensures named { in_bytes result ≡ member_of pool.now class typed by_interface }
    ensures few { length result.class.now < 2 ^ 16 }
    ensures short { length result.descriptor.now < 2 ^ 16 }
{
    MemberReference {
        class: class_text(pool, class).unwrap_or(&[]),
        name: member_name(pool, typed).unwrap_or(&[]),
        descriptor: member_descriptor(pool, typed).unwrap_or(&[]),
        by_interface,
    }
}

/// The field or method that an entry names; where the entry names none, or there is none, all its parts are empty.
pub fn member_by<'a>(pool: &'a Pool, entry: Option<&Entry>) -> MemberReference<'a>
    ensures named { in_bytes result ≡ member_named pool.now (option_copied entry.entry) }
    ensures few { length result.class.now < 2 ^ 16 }
    ensures short { length result.descriptor.now < 2 ^ 16 }
{
    match entry {
        Some(Entry::Field(class, typed) | Entry::Method(class, typed)) => {
            member_of(pool, *class, *typed, false)
        }
        Some(Entry::InterfaceMethod(class, typed)) => member_of(pool, *class, *typed, true),
        _ => member_of(pool, 0, 0, false),
    }
}

/// The field or method that the entry of an index names; where the entry names none, all its parts are empty.
pub fn member(pool: &Pool, index: u16) -> MemberReference<'_>
    ensures { in_bytes result ≡ member pool.now index }
{
    member_by(pool, entry_of(pool, index))
}
