//! Hashes of what an input names. A table of names finds one by some bits of its hash, so whoever knows how hashes begin can write an input
//! whose names all fall together. Here they begin with a key that is made of the input, so that each change of a name changes all of them.

ghost use Rattle.std.specs.Prelude.{◌≡◌};
ghost use Rattle.std.specs.Hash.DefaultHasher as sip;
ghost use Rattle.std.specs.Hash.FoldHasher as folding;
ghost use Rattle.vx_list.specs.Keys.{begun, key_of};

use std::hash::{BuildHasher, DefaultHasher, FoldHasher, Hasher};

/// Makes each hasher as one that has read a key.
#[derive(Clone, Copy)]
pub struct Keyed {
    pub started: FoldHasher,
}

impl Keyed {
    /// With a key that is the hash (SipHash) of what this has read.
    pub fn after(read: &DefaultHasher) -> Keyed
        ensures { folding.finish result.started ≡ begun (sip.finish read.now) }
    {
        let mut started = FoldHasher::default();
        started.write_u64(read.finish());
        Keyed { started }
    }

    /// With a key that is made of a text.
    pub fn by(text: &[u8]) -> Keyed
        ensures { folding.finish result.started ≡ begun (key_of text.now) }
    {
        let mut read = DefaultHasher::new();
        read.write(text);
        Keyed::after(&read)
    }
}

impl BuildHasher for Keyed {
    type Hasher = FoldHasher;

    ghost build_hasher = { λ keyed. keyed.started };

    fn build_hasher(&self) -> FoldHasher {
        self.started
    }
}
