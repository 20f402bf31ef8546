//! The access flags that reading a class looks at (JVMS 4.1, 4.5, 4.6).

ghost use Rattle.std.specs.Prelude.{◌≡◌};
ghost use Rattle.vx_class.specs.Members.{has};

/// A static field or method.
pub const STATIC: u16 = 0x0008;

/// A method that is carried out outside the class file.
pub const NATIVE: u16 = 0x0100;

/// An interface.
pub const INTERFACE: u16 = 0x0200;

/// A method without code, or a class that has no objects of its own.
pub const ABSTRACT: u16 = 0x0400;

/// Whether all bits of a flag stand among these.
pub fn has(flags: u16, flag: u16) -> bool
    ensures { result ≡ has flags flag }
{
    flags & flag == flag
}
