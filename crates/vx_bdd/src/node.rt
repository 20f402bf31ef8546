//! Nodes, operations, and what is known of an operation.

ghost use Rattle.std.specs.Prelude.{◌≡◌};
ghost use Rattle.vx_bdd.specs.Hashing.{number_of};

use std::hash::{Hash, Hasher};

/// The odd number that is next to 2^64 divided by the golden ratio: its multiples lie far from one another (Knuth's multiplicative hashing).
const FACTOR: u64 = 0x9e37_79b9_7f4a_7c15;

/// A node of a diagram: the option that it asks, and the ids to go to with it off and on.
#[derive(Clone, Copy, Debug, PartialEq, Eq)]
pub struct Node {
    pub option: u32,
    pub low: usize,
    pub high: usize,
}

impl Node {
    /// Its parts as one number, by Horner's rule modulo 2^64. Two nodes may have one number.
    fn number(&self) -> u64
        ensures { result ≡ number_of self.now }
    {
        (self.low as u64)
            .wrapping_mul(FACTOR)
            .wrapping_add(self.high as u64)
            .wrapping_mul(FACTOR)
            .wrapping_add(u64::from(self.option))
    }
}

/// By its number, in one write.
impl Hash for Node {
    ghost use Rattle.vx_bdd.specs.Hashing.{hashed, same_hashed};

    ghost hash_input = { hashed };

    ghost respects_eq = { same_hashed };

    fn hash<H: Hasher>(&self, state: &mut H) {
        state.write_u64(self.number());
    }
}

/// An operation on two sets.
#[derive(Clone, Copy, Debug)]
pub enum Op {
    And,
    Or,
    Minus,
}

/// Two ids, and the id of what an operation gives of their sets.
#[derive(Clone, Copy, Debug)]
pub struct Answer {
    pub a: usize,
    pub b: usize,
    pub id: usize,
}
