//! What every space of sets offers: the calls, what each means for the sets that the space knows, and the laws.

ghost use Rattle.std.specs.Prelude.{◌≡◌, ◌<◌, true, false, IfOk, OnOk, OnErr, IfSome, IsNone, ◌&&◌, ◌||◌, not, IsTrue, ◌↔◌, ◌⊎◌, map};
ghost use Rattle.vx_space.specs.Config.{value_of};
ghost use Rattle.vx_space.specs.Sets.{Sets, IsKnown, IsSet, IsLawful, Extends, IsTop, IsCompacted, IsJustUnder, AreKnown};
ghost use Rattle.vx_space.specs.Under.{IsNumberUnder};

use crate::config::Config;
use std::alloc::{AllocError, AllocFailed};
use thiserror::Error;

/// Want of memory in a call that may change a space, or that gives up what it changes. Ids that were known before the call keep their sets.
/// What was lent by `&` is unchanged, and what was lent by `&mut` beside the space (a heap, the state of a run, a table that is being filled)
/// is given up: nothing is said of it, unless the call says that it is as it was.
#[derive(Clone, Copy, Debug, PartialEq, Eq, Error)]
pub enum SpaceFault {
    #[error("out of memory")]
    NoMemory = 1,
}

impl From<AllocError> for SpaceFault {
    fn from(_error: AllocError) -> SpaceFault {
        SpaceFault::NoMemory
    }
}

impl<T: Drop> From<AllocFailed<T>> for SpaceFault {
    fn from(_error: AllocFailed<T>) -> SpaceFault {
        SpaceFault::NoMemory
    }
}

/// Sets of configurations, each with one id: equal sets have equal ids. The ids in a call must be known.
///
/// A call that may change a space extends it: ids that were known keep their sets, whether the call answers `Ok` or
/// `Err`. Only `compact` forgets ids.
pub trait Space {
    type Id: Copy + Eq + Ord;

    /// What the space knows: its options, its ids and the set of each.
    ghost sets: { Self → Sets Self.Id };

    /// How many options there are, at most 64.
    fn options(&self) -> u32
        ensures { result ≡ (sets self.now).options };

    /// The empty set.
    fn never(&self) -> Self::Id
        ensures { result ≡ (sets self.now).never };

    /// The set of all configurations.
    fn always(&self) -> Self::Id
        ensures { result ≡ (sets self.now).always };

    /// The configurations where option `i` is on, for an `i` below the number of options.
    fn option(&mut self, i: u32) -> Result<Self::Id, SpaceFault>
        requires { i < (sets self.old).options }
        ensures ok { IfOk result (λ r. IsSet (sets self.new) r (λ c. value_of c i)) }
        ensures extends { Extends (sets self.old) (sets self.new) };

    /// The intersection.
    fn and(&mut self, a: Self::Id, b: Self::Id) -> Result<Self::Id, SpaceFault>
        requires first { IsKnown (sets self.old) a }
        requires second { IsKnown (sets self.old) b }
        ensures ok { IfOk result (λ r. IsSet (sets self.new) r (λ c. (sets self.old).test a c && (sets self.old).test b c)) }
        ensures extends { Extends (sets self.old) (sets self.new) };

    /// The union.
    fn or(&mut self, a: Self::Id, b: Self::Id) -> Result<Self::Id, SpaceFault>
        requires first { IsKnown (sets self.old) a }
        requires second { IsKnown (sets self.old) b }
        ensures ok { IfOk result (λ r. IsSet (sets self.new) r (λ c. (sets self.old).test a c || (sets self.old).test b c)) }
        ensures extends { Extends (sets self.old) (sets self.new) };

    /// The difference.
    fn minus(&mut self, a: Self::Id, b: Self::Id) -> Result<Self::Id, SpaceFault>
        requires first { IsKnown (sets self.old) a }
        requires second { IsKnown (sets self.old) b }
        ensures ok { IfOk result (λ r. IsSet (sets self.new) r (λ c. (sets self.old).test a c && not ((sets self.old).test b c))) }
        ensures extends { Extends (sets self.old) (sets self.new) };

    /// Whether the set is empty.
    fn is_never(&self, a: Self::Id) -> bool
        requires { IsKnown (sets self.now) a }
        ensures { IsTrue result ↔ (a ≡ (sets self.now).never) };

    /// Whether a configuration belongs to the set.
    fn holds(&self, a: Self::Id, c: &Config) -> bool
        requires { IsKnown (sets self.now) a }
        ensures { result ≡ (sets self.now).test a c.now };

    /// The least option on which the set depends, and the sets with it off and on: the root of the set's reduced diagram
    /// (Bryant 1986). `None` exactly for never and always.
    fn top(&self, a: Self::Id) -> Option<(u32, Self::Id, Self::Id)>
        requires { IsKnown (sets self.now) a }
        ensures none { IsNone result ↔ ((a ≡ (sets self.now).never) ⊎ (a ≡ (sets self.now).always)) }
        ensures some { IfSome result (λ r. IsTop (sets self.now) a r.0 r.1 r.2) };

    /// The number of known sets in a space that counts its sets.
    fn count(&self) -> u64
        ensures { result ≡ (sets self.now).count };

    /// What `count` was directly after the last `compact`, or when the space was made.
    fn base(&self) -> u64
        ensures { result ≡ (sets self.now).base };

    /// Keeps each root, never and always with their ids and sets. Other ids may be unknown afterwards, and an unknown id
    /// may later stand for another set. A space that counts its sets then knows just those under the roots. Want of
    /// memory leaves the space as it was.
    fn compact(&mut self, roots: &[Self::Id]) -> Result<(), AllocError>
        requires { AreKnown (sets self.old) roots.now }
        ensures ok { OnOk result (IsCompacted (sets self.old) (sets self.new) roots.now) }
        ensures counted { OnOk result ((sets self.new).counts ≡ true → IsJustUnder (sets self.new) (map (sets self.old).test roots.now)) }
        ensures based { OnOk result ((sets self.new).counts ≡ true → IsNumberUnder (map (sets self.old).test roots.now) (sets self.new).base) }
        ensures err { OnErr result (sets self.new ≡ sets self.old) };

    /// The laws of every space: never and always, equal sets, options alone matter, the count.
    ghost lawful: { (space : Self) → IsLawful (sets space) };

    /// Ids that compare equal are one id.
    ghost exact: { (a b : Self.Id) → Self.Id.eq a b ≡ true → a ≡ b };
}
