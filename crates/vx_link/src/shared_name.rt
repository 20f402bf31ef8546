//! Names that several members have.

ghost use Rattle.std.specs.Prelude.{◌≡◌, ◌<◌, ◌^◌, IfOk, length};
ghost use Rattle.vx_link.specs.MemberKeys.{hash_of};

use crate::member_keys::hash_of;
use std::alloc::{AllocError, Global};
use std::marker::Model;
use std::rc::Rc;
use vx_value::Name;

/// Bytes that name a member, kept once with their hash for all that have the name. A class file counts them by two bytes (JVMS 4.4.7), so
/// there are fewer than 2^16. Contracts see the list of them.
#[derive(Drop)]
pub struct SharedName {
    name: Rc<Name, Global>,
    hash: u64,
}

impl Model for SharedName {
    ghost use Rattle.std.specs.Prelude.{◌≡◌, ◌<◌, ◌^◌, ℕ, List, length};
    ghost use Rattle.vx_link.specs.MemberKeys.{hash_of};

    ghost Value = { List ℕ };

    ghost view = { λ shared. shared.name.value };

    ghost invariant = { λ shared. (shared.hash ≡ hash_of shared.name.value) × (length shared.name.value < 2 ^ 16) };
}

impl SharedName {
    /// The name that these bytes spell, which one member has so far.
    pub fn of(alloc: Global, bytes: &[u8]) -> Result<SharedName, AllocError>
        requires { length bytes.now < 2 ^ 16 }
        ensures { IfOk result (λ shared. shared ≡ bytes.now) }
    {
        let name = Name::of(alloc, bytes)?;
        let hash = hash_of(bytes);
        let name = Rc::new(alloc, name)?;
        Ok(SharedName { name, hash })
    }

    /// The same name for one more member. It needs no memory, and fails where the count of members is full.
    pub fn share(&self) -> Result<SharedName, AllocError>
        ensures { IfOk result (λ shared. shared ≡ self.now) }
    {
        Ok(SharedName {
            name: self.name.clone()?,
            hash: self.hash,
        })
    }

    /// Its bytes.
    pub fn bytes(&self) -> &[u8]
        ensures value { result.now ≡ self.now }
        ensures few { length result.now < 2 ^ 16 }
    {
        self.name.as_ref().bytes()
    }

    /// The hash of its bytes.
    pub(crate) fn hash(&self) -> u64
        ensures { result ≡ hash_of self.now }
    {
        self.hash
    }
}
