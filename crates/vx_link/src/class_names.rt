//! What a class file names: itself, its superclass, its superinterfaces, its members (JVMS 4.1, 4.4).

ghost use Rattle.std.specs.Prelude.{◌≡◌, ◌<◌, ◌^◌, length};
ghost use Rattle.std.specs.Option.{option_copied};
ghost use Rattle.vx_link.specs.Names.{class_name, utf8};
ghost use Rattle.vx_link.specs.Faults.{name_of, super_name, is_interface_file};

use crate::access_flags::AccessFlags;
use bitflags::Flags;
use vx_class::ClassFile;
use vx_pool::{Pool, class_text, text};

/// The name of a class entry.
pub fn class_name(pool: &Pool, index: u16) -> &[u8]
    ensures { result.now ≡ class_name pool.now index }
{
    class_text(pool, index).unwrap_or(&[])
}

/// The bytes of a text entry.
pub fn utf8(pool: &Pool, index: u16) -> &[u8]
    ensures value { result.now ≡ utf8 pool.now index }
    ensures few { length result.now < 2 ^ 16 }
{
    text(pool, index).unwrap_or(&[])
}

/// The name of a class.
pub fn name_of(class: &ClassFile) -> &[u8]
    ensures { result.now ≡ name_of class.now }
{
    class_name(&class.pool, class.this_class)
}

/// The name of its superclass, which Object alone lacks.
pub fn super_name(class: &ClassFile) -> Option<&[u8]>
    ensures { option_copied result ≡ super_name class.now }
{
    if class.super_class == 0 {
        return None;
    }
    Some(class_name(&class.pool, class.super_class))
}

/// Whether it is an interface.
pub fn is_interface(class: &ClassFile) -> bool
    ensures { result ≡ is_interface_file class.now }
{
    AccessFlags(class.flags).contains(AccessFlags::INTERFACE)
}
