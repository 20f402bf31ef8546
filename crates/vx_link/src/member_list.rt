//! The members of a program, each found by its name and its descriptor.

ghost use Rattle.std.specs.Prelude.{◌≡◌, ◌&&◌, IfOk, bytes_eq, length, map, option_copied, slice_get};
ghost use Rattle.vx_link.specs.MemberKeys.{AreKeys};
ghost use Rattle.vx_link.specs.Members.{IsFirst};

use crate::member_keys::{hash_of_both, key_of, next_number};
use crate::program::{LinkedField, LinkedMethod};
use crate::sought::Sought;
use std::alloc::{AllocError, Global};
use std::collections::BTreeSet;
use std::marker::Model;
use vx_list::Items;

/// A method or a field.
pub trait Member {
    ghost use Rattle.std.specs.Prelude.{ℕ, List};
    ghost use Rattle.vx_link.specs.MemberKeys.{hash_of_signature};

    /// Its name and its descriptor.
    ghost signature: { Self → List ℕ × List ℕ };

    fn name(&self) -> &[u8]
        ensures { result.now ≡ (signature self.now).0 };

    fn descriptor(&self) -> &[u8]
        ensures { result.now ≡ (signature self.now).1 };

    /// The hash of both, of which each is hashed already.
    fn hash(&self) -> u64
        ensures { result ≡ hash_of_signature (signature self.now) };
}

impl Member for LinkedMethod {
    ghost signature = { λ m. (m.name, m.descriptor) };

    fn name(&self) -> &[u8] {
        self.name.bytes()
    }

    fn descriptor(&self) -> &[u8] {
        self.descriptor.bytes()
    }

    fn hash(&self) -> u64 {
        hash_of_both(self.name.hash(), self.descriptor.hash())
    }
}

impl Member for LinkedField {
    ghost signature = { λ f. (f.name, f.descriptor) };

    fn name(&self) -> &[u8] {
        self.name.bytes()
    }

    fn descriptor(&self) -> &[u8] {
        self.descriptor.bytes()
    }

    fn hash(&self) -> u64 {
        hash_of_both(self.name.hash(), self.descriptor.hash())
    }
}

fn keys_of<M: Member>(alloc: Global, members: &[M]) -> Result<BTreeSet<u128>, AllocError>
    ensures { IfOk result (λ keys. AreKeys (map M.signature members.now) keys) }
{
    let mut keys = BTreeSet::new(alloc);
    for place in 0..members.len() {
        keys.insert(key_of(members[place].hash(), place as u64))?;
    }
    Ok(keys)
}

fn is_sought<M: Member>(member: &M, sought: &Sought) -> bool
    ensures { result ≡ (bytes_eq (M.signature member.now).0 sought.now.0 && bytes_eq (M.signature member.now).1 sought.now.1) }
{
    member.name() == sought.name() && member.descriptor() == sought.descriptor()
}

/// The methods or the fields of a program in order, with a table in which they are found by their names and descriptors. Contracts see the
/// list of them.
#[derive(Drop)]
pub struct MemberList<M: Member> {
    members: Items<M>,
    /// The key of each member, so that the members of a name and a descriptor follow one another.
    keys: BTreeSet<u128>,
}

impl<M: Member> Model for MemberList<M> {
    ghost use Rattle.std.specs.Prelude.{List, map};
    ghost use Rattle.vx_link.specs.MemberKeys.{AreKeys};

    ghost Value = { List M };

    ghost view = { λ list. list.members };

    ghost invariant = { λ list. AreKeys (map M.signature list.members) list.keys };
}

impl<M: Member> MemberList<M> {
    /// A list of these members.
    pub fn of(alloc: Global, members: Items<M>) -> Result<MemberList<M>, AllocError>
    where
        M: Drop,
        ensures { IfOk result (λ list. list ≡ members) }
    {
        let keys = keys_of(alloc, members.as_slice())?;
        Ok(MemberList { members, keys })
    }

    /// How many members there are.
    pub fn len(&self) -> usize
        ensures { result ≡ length self.now }
    {
        self.members.len()
    }

    /// The member at a place, or `None` past the last one.
    pub fn get(&self, place: usize) -> Option<&M>
        ensures { option_copied result ≡ slice_get self.now place }
    {
        self.members.get(place)
    }

    /// The members as a slice.
    pub fn as_slice(&self) -> &[M]
        ensures { result.now ≡ self.now }
    {
        self.members.as_slice()
    }

    /// The vector that holds them, and their keys.
    pub fn into_parts(self) -> (Vec<M>, BTreeSet<u128>)
        ensures members { result.0.items ≡ self }
        ensures keys { AreKeys (map M.signature self) result.1 }
    {
        (self.members.into_vec(), self.keys)
    }

    /// A list of members whose keys are known.
    pub fn from_parts(members: Items<M>, keys: BTreeSet<u128>) -> MemberList<M>
        requires { AreKeys (map M.signature members) keys }
        ensures { result ≡ members }
    {
        MemberList { members, keys }
    }

    /// The number of the first member from a number on that is sought. It is found by its hash. Where none is up to a last number, the
    /// answer may be any number past that.
    pub fn first(&self, sought: &Sought, mut from: u64, last: u64) -> Option<u64>
        ensures { IsFirst (map M.signature self.now) sought.now.0 sought.now.1 from last result }
    {
        loop {
            let number = next_number(&self.keys, sought.hash(), from)?;
            if number > last {
                return Some(number);
            }
            if is_sought(&self.members.as_slice()[number as usize], sought) {
                return Some(number);
            }
            from = number.checked_add(1)?;
        }
    }
}
