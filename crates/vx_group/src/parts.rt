//! The parts of a key below the top, as a stack.

ghost use Rattle.std.specs.Prelude.{◌≡◌, ◌↔◌, [], ◌∷◌, IsTrue, length, reverse, IfOk, IfSome, IfNone, OnErr};
ghost use Rattle.std.specs.Cmp.Lexicographic.{slice_cmp};
ghost use Rattle.std.specs.Ordering.{eq_by_cmp};
ghost use Rattle.vx_value.specs.Key.{part_cmp};

use std::alloc::{AllocError, Global};
use std::cmp::Ordering;
use std::marker::Model;
use vx_value::{Key, KeyPart};

/// The parts of the frames below the top. Contracts see the list with the nearest first.
#[derive(Drop)]
pub struct Parts {
    parts: Vec<KeyPart>,
}

impl Model for Parts {
    ghost use Rattle.std.specs.Prelude.{List, reverse};
    ghost use Rattle.vx_value.specs.declared.key.KeyPart.{KeyPart};

    ghost Value = { List KeyPart };

    ghost view = { λ s. reverse s.parts.items };
}

impl Parts {
    pub(crate) fn new(alloc: Global) -> Parts
        ensures { result ≡ [] }
    {
        Parts {
            parts: Vec::new(alloc),
        }
    }

    pub(crate) fn len(&self) -> usize
        ensures { result ≡ length self.now }
    {
        self.parts.len()
    }

    /// Puts the part of the frame that is the nearest now. Want of memory leaves the parts as they were.
    pub(crate) fn push(&mut self, part: KeyPart) -> Result<(), AllocError>
        ensures ok { IfOk result (λ _. self.new ≡ part ∷ self.old) }
        ensures err { OnErr result (self.new ≡ self.old) }
    {
        self.parts.push(part)?;
        Ok(())
    }

    /// Takes the part of the nearest frame off.
    pub(crate) fn pop(&mut self) -> Option<KeyPart>
        ensures some { IfSome result (λ part. self.old ≡ part ∷ self.new) }
        ensures none { IfNone result (self.old ≡ []) }
        ensures empty { IfNone result (self.new ≡ []) }
    {
        self.parts.pop()
    }

    pub(crate) fn copy(&self) -> Result<Parts, AllocError>
        ensures { IfOk result (λ r. r ≡ self.now) }
    {
        Ok(Parts {
            parts: Vec::from_slice(*self.parts.allocator(), self.parts.as_slice())?,
        })
    }

    /// Whether they are these parts.
    pub(crate) fn are(&self, other: &Parts) -> bool
        ensures { IsTrue result ↔ (self.now ≡ other.now) }
    {
        are_same_parts(self.parts.as_slice(), other.parts.as_slice())
    }

    /// The key of these parts below the part of the frame on top.
    pub(crate) fn key(&self, top: KeyPart) -> Result<Key, AllocError>
        ensures { IfOk result (λ r. r ≡ reverse (top ∷ self.now)) }
    {
        let room = self.parts.len().saturating_add(1);
        let mut parts = Vec::with_capacity(*self.parts.allocator(), room)?;
        parts.extend_from_slice(self.parts.as_slice())?;
        parts.push(top)?;
        Ok(Key::from_vec(parts))
    }
}

/// Whether two parts are one part.
pub(crate) fn is_same_part(first: KeyPart, second: KeyPart) -> bool
    ensures { result ≡ eq_by_cmp part_cmp first second }
{
    first.cmp(&second) == Ordering::Equal
}

/// Whether these are the same parts in the same order.
fn are_same_parts(first: &[KeyPart], second: &[KeyPart]) -> bool
    ensures { result ≡ eq_by_cmp (slice_cmp part_cmp) first.now second.now }
{
    first.cmp(&second) == Ordering::Equal
}
