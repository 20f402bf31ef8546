//! Stacks of numbers as numbered chains, so that stacks share what they have in common.

ghost use Rattle.std.specs.Prelude.{◌≡◌, ◌<◌, ◌≤◌, ◌∷◌, [], IfOk, IfSome, IfNone, OnErr, length};
ghost use Rattle.std.proofs.Props.{props};
ghost use Rattle.vx_numbered.specs.Chains.{DoFall, IsKnownStack, IsPushed, chain_of, words_at};

use crate::numbers::next_number;
use indexmap::IndexMap;
use std::alloc::{AllocError, Global};

/// The number of no stack.
pub const EMPTY: u32 = 0;

/// A number on top, the stack under it, and a number that is kept with the whole, as how many words it takes.
#[derive(Clone, Copy)]
pub struct Link {
    pub top: u32,
    pub under: u32,
    pub words: u32,
}

/// Links in order: a stack is 0, or one more than the place of its link. Each link stands on a stack before it.
#[derive(Drop)]
pub struct Chains {
    pub links: Vec<Link>,
    /// Which stack a number on a stack may be. What is found there is looked at.
    stacks: IndexMap<(u32, u32), u32>,
    pub ghost fall: { DoFall links.items } by { Prim.hlevel props },
}

impl Chains {
    /// No links.
    pub fn new(alloc: Global) -> Chains
        ensures { result.links.items ≡ [] }
    {
        Chains {
            links: Vec::new(alloc),
            stacks: IndexMap::new(alloc),
        }
    }

    /// The number on top of a stack and the stack under it, or `None` for no stack.
    pub fn popped(&self, stack: u32) -> Option<(u32, u32)>
        requires { stack ≤ length self.now.links.items }
        ensures some { IfSome result (λ pair. chain_of self.now.links.items stack ≡ pair.0 ∷ chain_of self.now.links.items pair.1) }
        ensures falls { IfSome result (λ pair. pair.1 < stack) }
        ensures none { IfNone result (stack ≡ 0) }
    {
        let place = stack.checked_sub(1)?;
        let link = self.links[place as usize];
        Some((link.top, link.under))
    }

    /// The stack of a number on a stack, if it is known.
    pub fn known(&self, top: u32, under: u32) -> Option<u32>
        ensures { IfSome result (IsKnownStack self.now.links.items top under) }
    {
        let stack = *self.stacks.get(&(top, under))?;
        if stack as usize > self.links.len() {
            return None;
        }
        let (number, rest) = self.popped(stack)?;
        if number != top {
            return None;
        }
        if rest != under {
            return None;
        }
        Some(stack)
    }

    /// A number on a stack, with a number that is kept with the whole, as a new stack. Want of memory leaves the links as they were.
    pub fn pushed(&mut self, top: u32, under: u32, words: u32) -> Result<u32, AllocError>
        requires { under ≤ length self.old.links.items }
        ensures ok { IfOk result (IsPushed self.old.links.items self.new.links.items (record { top = top; under = under; words = words })) }
        ensures err { OnErr result (self.new.links.items ≡ self.old.links.items) }
    {
        let stack = next_number(self.links.len() + 1)?;
        self.stacks.insert((top, under), stack)?;
        self.links.push(Link { top, under, words })?;
        Ok(stack)
    }

    /// The number that is kept with a stack, 0 for no stack.
    pub fn words(&self, stack: u32) -> u32
        requires { stack ≤ length self.now.links.items }
        ensures { result ≡ words_at self.now.links.items stack }
    {
        match stack.checked_sub(1) {
            Some(place) => self.links[place as usize].words,
            None => 0,
        }
    }
}
