//! What members are looked for by.

ghost use Rattle.std.specs.Prelude.{◌≡◌};
ghost use Rattle.vx_link.specs.MemberKeys.{hash_of_signature};

use crate::member_keys::{hash_of, hash_of_both};
use std::marker::Model;

/// A name and a descriptor by which members are looked for, with their hash, which is made once for all classes that are looked in.
/// Contracts see the pair of them.
#[derive(Drop)]
pub struct Sought<'a> {
    name: &'a [u8],
    descriptor: &'a [u8],
    hash: u64,
}

impl<'a> Model for Sought<'a> {
    ghost use Rattle.std.specs.Prelude.{◌≡◌, ℕ, List};
    ghost use Rattle.vx_link.specs.MemberKeys.{hash_of_signature};

    ghost Value = { List ℕ × List ℕ };

    ghost view = { λ sought. (sought.name.now, sought.descriptor.now) };

    ghost invariant = { λ sought. sought.hash ≡ hash_of_signature (sought.name.now, sought.descriptor.now) };
}

impl<'a> Sought<'a> {
    /// A member of this name and this descriptor.
    pub fn of(name: &'a [u8], descriptor: &'a [u8]) -> Sought<'a>
        ensures { result ≡ (name.now, descriptor.now) }
    {
        let hash = hash_of_both(hash_of(name), hash_of(descriptor));
        Sought {
            name,
            descriptor,
            hash,
        }
    }

    /// Its name.
    pub fn name(&self) -> &'a [u8]
        ensures { result.now ≡ self.now.0 }
    {
        self.name
    }

    /// Its descriptor.
    pub fn descriptor(&self) -> &'a [u8]
        ensures { result.now ≡ self.now.1 }
    {
        self.descriptor
    }

    /// The hash of both.
    pub(crate) fn hash(&self) -> u64
        ensures { result ≡ hash_of_signature self.now }
    {
        self.hash
    }
}
