//! Access flags of classes, methods and fields.

ghost use Rattle.std.specs.Prelude.{⊤, [], ◌∷◌, codes};

use bitflags::{Flag, Flags, bitflag_items};

/// A set of access flags, as a class file has it (JVMS 4.1, 4.5, 4.6). Bits without a name are kept.
#[derive(Clone, Copy, PartialEq, Eq)]
pub struct AccessFlags(pub u16);

bitflag_items! {
    impl AccessFlags: u16 {
        const PUBLIC = 0x0001;
        const PRIVATE = 0x0002;
        const STATIC = 0x0008;
        const FINAL = 0x0010;
        const SUPER = 0x0020;
        const NATIVE = 0x0100;
        const INTERFACE = 0x0200;
        const ABSTRACT = 0x0400;
    }
}

impl Flags for AccessFlags {
    type Bits = u16;

    ghost exact = { ⊤ };

    ghost table = { (codes "PUBLIC", 0x0001) ∷ (codes "PRIVATE", 0x0002) ∷ (codes "STATIC", 0x0008) ∷ (codes "FINAL", 0x0010)
        ∷ (codes "SUPER", 0x0020) ∷ (codes "NATIVE", 0x0100) ∷ (codes "INTERFACE", 0x0200) ∷ (codes "ABSTRACT", 0x0400) ∷ [] };

    ghost set_of = { λ flags. flags.0 };

    fn flags<'a>() -> &'a [Flag<AccessFlags>] {
        AccessFlags::FLAGS
    }

    fn bits(&self) -> u16 {
        self.0
    }

    fn from_bits_retain(bits: u16) -> AccessFlags {
        AccessFlags(bits)
    }
}
