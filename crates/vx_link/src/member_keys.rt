//! Keys by which members are found: hashes of their names and descriptors, and their numbers.

ghost use Rattle.std.specs.Prelude.{◌≡◌, ◌≤◌};
ghost use Rattle.vx_link.specs.MemberKeys.{IsNext, IsNextNumber, IsNumber, hash_of, hash_of_both, key_of};

use std::collections::BTreeSet;
use std::hash::{DefaultHasher, Hasher};

/// The hash of a text.
pub(crate) fn hash_of(text: &[u8]) -> u64
    ensures { result ≡ hash_of text.now }
{
    let mut hasher = DefaultHasher::new();
    hasher.write(text);
    hasher.finish()
}

/// One hash of two.
pub(crate) fn hash_of_both(one: u64, other: u64) -> u64
    ensures { result ≡ hash_of_both one other }
{
    let mut hasher = DefaultHasher::new();
    hasher.write(&one.to_le_bytes());
    hasher.write(&other.to_le_bytes());
    hasher.finish()
}

/// The key of a member: a hash of its name and its descriptor, and below it its number.
pub(crate) fn key_of(hash: u64, number: u64) -> u128
    ensures { result ≡ key_of hash number }
{
    hash as u128 * 18446744073709551616 + number as u128
}

/// The number in a key, if it is one of this hash.
fn number_in(hash: u64, key: u128) -> Option<u64>
    requires { key_of hash 0 ≤ key }
    ensures { IsNumber hash key result }
{
    u64::try_from(key - key_of(hash, 0)).ok()
}

/// The least key from one on.
fn next_key(keys: &BTreeSet<u128>, from: u128) -> Option<u128>
    ensures { IsNext keys.now from result }
{
    keys.range(from..).next().copied()
}

/// The least number from one on that has a key of this hash.
pub(crate) fn next_number(keys: &BTreeSet<u128>, hash: u64, from: u64) -> Option<u64>
    ensures { IsNextNumber keys.now hash from result }
{
    let key = next_key(keys, key_of(hash, from))?;
    number_in(hash, key)
}
