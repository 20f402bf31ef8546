//! The names and descriptors of members, found by their hashes.

ghost use Rattle.std.specs.Prelude.{◌≡◌, ◌++◌, ◌∷◌, [], ℕ, List, ◌&&◌, ◌||◌, IfOk, OnErr, OnOk};
ghost use Rattle.std.specs.Str.{bytes_eq};
ghost use Rattle.vx_asm.specs.Signatures.{has_key, is_taken};

use indexmap::IndexSet;
use std::alloc::{AllocError, Global};
use std::marker::Model;
use vx_list::{Keyed, or_cut_back};
use vx_value::Name;

/// The name and the descriptor of a member.
#[derive(Debug, Drop)]
pub struct Signature {
    pub name: Name,
    pub descriptor: Name,
}

/// Signatures in order, each found by its hash. Contracts see the list of them.
#[derive(Drop)]
pub struct SignatureTable {
    signatures: Vec<Signature>,
    taken: IndexSet<(Vec<u8>, Vec<u8>), Keyed>,
}

impl Model for SignatureTable {
    ghost use Rattle.std.specs.Prelude.{List};
    ghost use Rattle.vx_asm.specs.Signatures.{AreTaken};
    ghost use Rattle.vx_asm.specs.declared.signature_table.Signature.{Signature};

    ghost Value = { List Signature };

    ghost view = { λ table. table.signatures.items };

    ghost invariant = { λ table. AreTaken table.signatures.items table.taken.keys };
}

/// The name and the descriptor of a member as a key.
fn key_of(alloc: Global, name: &[u8], descriptor: &[u8]) -> Result<(Vec<u8>, Vec<u8>), AllocError>
    ensures { IfOk result (λ k. (k.0.items ≡ name.now) × (k.1.items ≡ descriptor.now)) }
{
    let name = Vec::from_slice(alloc, name)?;
    let descriptor = Vec::from_slice(alloc, descriptor)?;
    Ok((name, descriptor))
}

/// Puts a key among the others, where it may be already. Want of memory leaves them as they were.
fn put_key(
    alloc: Global,
    taken: &mut IndexSet<(Vec<u8>, Vec<u8>), Keyed>,
    name: &[u8],
    descriptor: &[u8],
) -> Result<(), AllocError>
    ensures ok { OnOk result ((n d : List ℕ) → has_key taken.new.keys n d ≡ (has_key taken.old.keys n d || (bytes_eq n name.now && bytes_eq d descriptor.now))) }
    ensures err { OnErr result (taken.new.keys ≡ taken.old.keys) }
{
    let key = key_of(alloc, name, descriptor)?;
    taken.insert(key)?;
    Ok(())
}

fn signature_of(alloc: Global, name: &[u8], descriptor: &[u8]) -> Result<Signature, AllocError>
    ensures { IfOk result (λ s. s ≡ record { name = name.now; descriptor = descriptor.now }) }
{
    Ok(Signature {
        name: Name::of(alloc, name)?,
        descriptor: Name::of(alloc, descriptor)?,
    })
}

impl SignatureTable {
    /// No signatures. Hashes begin with a key that is made of all from which they come.
    pub fn new(alloc: Global, key: Keyed) -> SignatureTable
        ensures { result ≡ [] }
    {
        SignatureTable {
            signatures: Vec::new(alloc),
            taken: IndexSet::with_hasher(alloc, key),
        }
    }

    /// Whether a member before has the same name and descriptor.
    pub fn is_taken(
        &self,
        alloc: Global,
        name: &[u8],
        descriptor: &[u8],
    ) -> Result<bool, AllocError>
        ensures { IfOk result (λ b. b ≡ is_taken self.now name.now descriptor.now) }
    {
        let key = key_of(alloc, name, descriptor)?;
        Ok(self.taken.contains(&key))
    }

    /// A signature behind the others, which want of memory leaves as they were.
    pub fn push(&mut self, alloc: Global, name: &[u8], descriptor: &[u8]) -> Result<(), AllocError>
        ensures ok { OnOk result (self.new ≡ self.old ++ record { name = name.now; descriptor = descriptor.now } ∷ []) }
        ensures err { OnErr result (self.new ≡ self.old) }
    {
        let signature = signature_of(alloc, name, descriptor)?;
        let held = self.signatures.len();
        self.signatures.push(signature)?;
        let put = put_key(alloc, &mut self.taken, name, descriptor);
        or_cut_back(put, &mut self.signatures, held)
    }
}
