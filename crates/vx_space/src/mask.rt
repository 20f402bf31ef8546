//! Sets of configurations of at most six options, as bits of one number. No call allocates or fails.

ghost use Rattle.std.specs.Prelude.{◌≡◌, ℕ, ◌+◌, ◌^◌, ◌<◌, ◌≤◌, true, false, if◌then◌else◌, nat_eq, ◌-◌, ◌⊎◌, ◌↔◌, IsNone, IfSome, IsOk, IfOk, OnOk, ◌&&◌, ◌||◌, not};
ghost use Rattle.std.specs.Int.{bit_at};
ghost use Rattle.std.proofs.lemmas.Map.Views.{exact_unsigned_eq};
ghost use Rattle.vx_space.specs.Config.{value_of};
ghost use Rattle.vx_space.specs.Sets.{IsKnown, IsTop, IsSet, Extends, IsCompacted, AreKnown};
ghost use Rattle.vx_space.specs.Mask.{masks, number_of, with_bit, HasBits};
ghost use Rattle.vx_space.specs.MaskLaws.{lawful_masks};

use crate::config::Config;
use crate::space::{Space, SpaceFault};
use std::alloc::AllocError;

/// Sets of configurations of at most six options, as bits of a number: bit n stands for the configuration with number n,
/// which is the sum of 2^i over the options i that are on. No call allocates or fails.
#[derive(Clone, Copy)]
pub struct MaskSpace {
    options: u32,
    ghost few: { options ≤ 6 },
}

impl MaskSpace {
    ghost use Rattle.vx_space.specs.Mask.{masks};

    /// The space of so many options.
    pub fn new(options: u32) -> MaskSpace
        requires { options ≤ 6 }
        ensures { ⟦<MaskSpace as Space>⟧.sets result ≡ masks options }
    {
        MaskSpace { options }
    }
}

impl Space for MaskSpace {
    type Id = u64;

    ghost sets = { λ s. masks s.options };

    ghost lawful = { λ s. lawful_masks s.options s.few };

    ghost exact = { exact_unsigned_eq };

    fn options(&self) -> u32 {
        self.options
    }

    fn never(&self) -> u64 {
        0
    }

    fn always(&self) -> u64 {
        all_below(self.options)
    }

    fn option(&mut self, i: u32) -> Result<u64, SpaceFault>
        requires { i < (masks self.old.options).options }
        ensures never_fails { IsOk result }
        ensures ok { IfOk result (λ r. IsSet (masks self.new.options) r (λ c. value_of c i)) }
        ensures extends { Extends (masks self.old.options) (masks self.new.options) }
    {
        Ok(option_mask(self.options, i))
    }

    fn and(&mut self, a: u64, b: u64) -> Result<u64, SpaceFault>
        requires first { IsKnown (masks self.old.options) a }
        requires second { IsKnown (masks self.old.options) b }
        ensures never_fails { IsOk result }
        ensures ok { IfOk result (λ r. IsSet (masks self.new.options) r (λ c. (masks self.old.options).test a c && (masks self.old.options).test b c)) }
        ensures extends { Extends (masks self.old.options) (masks self.new.options) }
    {
        Ok(a & b)
    }

    fn or(&mut self, a: u64, b: u64) -> Result<u64, SpaceFault>
        requires first { IsKnown (masks self.old.options) a }
        requires second { IsKnown (masks self.old.options) b }
        ensures never_fails { IsOk result }
        ensures ok { IfOk result (λ r. IsSet (masks self.new.options) r (λ c. (masks self.old.options).test a c || (masks self.old.options).test b c)) }
        ensures extends { Extends (masks self.old.options) (masks self.new.options) }
    {
        Ok(a | b)
    }

    fn minus(&mut self, a: u64, b: u64) -> Result<u64, SpaceFault>
        requires first { IsKnown (masks self.old.options) a }
        requires second { IsKnown (masks self.old.options) b }
        ensures never_fails { IsOk result }
        ensures ok { IfOk result (λ r. IsSet (masks self.new.options) r (λ c. (masks self.old.options).test a c && not ((masks self.old.options).test b c))) }
        ensures extends { Extends (masks self.old.options) (masks self.new.options) }
    {
        Ok(a & !b)
    }

    fn is_never(&self, a: u64) -> bool {
        a == 0
    }

    fn holds(&self, a: u64, c: &Config) -> bool {
        bit(a, number(self.options, c))
    }

    fn top(&self, a: u64) -> Option<(u32, u64, u64)> {
        top_of(self.options, a)
    }

    fn count(&self) -> u64 {
        2
    }

    fn base(&self) -> u64 {
        2
    }

    fn compact(&mut self, _roots: &[u64]) -> Result<(), AllocError>
        requires { AreKnown (masks self.old.options) _roots.now }
        ensures never_fails { IsOk result }
        ensures ok { OnOk result (IsCompacted (masks self.old.options) (masks self.new.options) _roots.now) }
        ensures unchanged { self.new ≡ self.old }
    {
        Ok(())
    }
}

/// The mask of all configurations.
fn all_below(options: u32) -> u64
    requires { options ≤ 6 }
    ensures { result ≡ 2 ^ 2 ^ options - 1 }
{
    if options == 6 {
        u64::MAX
    } else {
        (1u64 << cells(options)) - 1
    }
}

/// The least option on which a set depends, and its parts.
fn top_of(options: u32, a: u64) -> Option<(u32, u64, u64)>
    requires options { options ≤ 6 }
    requires known { IsKnown (masks options) a }
    ensures none { IsNone result ↔ ((a ≡ (masks options).never) ⊎ (a ≡ (masks options).always)) }
    ensures some { IfSome result (λ r. IsTop (masks options) a r.0 r.1 r.2) }
{
    for i in 0..options {
        let low = fixed_mask(options, a, i, false);
        let high = fixed_mask(options, a, i, true);
        if low != high {
            return Some((i, low, high));
        }
    }
    None
}

/// A mask with one bit more, above all others.
fn put_bit(mask: u64, k: u32, on: bool) -> u64
    requires at { k < 64 }
    requires below { mask < 2 ^ k }
    ensures below { result < 2 ^ (k + 1) }
    ensures same { (j : ℕ) → j < k → bit_at result j ≡ bit_at mask j }
    ensures put { bit_at result k ≡ (if on then 1 else 0) }
{
    if on { mask | (1 << k) } else { mask }
}

/// A number with bit i as given.
fn with_bit(k: u32, i: u32, on: bool) -> u32
    requires number { k < 64 }
    requires bit { i < 6 }
    ensures value { result ≡ with_bit k i on }
    ensures below { result < 64 }
{
    if on { k | (1 << i) } else { k & !(1 << i) }
}

/// Whether a mask has a bit.
fn bit(mask: u64, k: u32) -> bool
    requires { k < 64 }
    ensures { result ≡ nat_eq (bit_at mask k) 1 }
{
    (mask >> k) & 1 == 1
}

/// How many configurations there are.
fn cells(options: u32) -> u32
    requires { options ≤ 6 }
    ensures value { result ≡ 2 ^ options }
    ensures at_most { result < 65 }
{
    1 << options
}

/// The configurations whose number has bit i.
fn option_mask(options: u32, i: u32) -> u64
    requires options { options ≤ 6 }
    requires bit { i < options }
    ensures { HasBits result (2 ^ options) (λ k. nat_eq (bit_at k i) 1) }
{
    let mut mask = 0;
    for k in 0..cells(options) {
        let on = bit(u64::from(k), i);
        mask = put_bit(mask, k, on);
    }
    mask
}

/// A mask with option i fixed.
fn fixed_mask(options: u32, a: u64, i: u32, on: bool) -> u64
    requires options { options ≤ 6 }
    requires bit { i < options }
    ensures { HasBits result (2 ^ options) (λ k. nat_eq (bit_at a (with_bit k i on)) 1) }
{
    let mut mask = 0;
    for k in 0..cells(options) {
        let from = with_bit(k, i, on);
        let has = bit(a, from);
        mask = put_bit(mask, k, has);
    }
    mask
}

/// The number of the options below i and of option i.
fn add_option(sum: u32, i: u32, on: bool) -> u32
    requires option { i < 6 }
    requires sum { sum < 2 ^ i }
    ensures { result ≡ sum + (if on then 2 ^ i else 0) }
{
    if on { sum + (1u32 << i) } else { sum }
}

/// The number of a configuration.
fn number(options: u32, c: &Config) -> u32
    requires { options ≤ 6 }
    ensures value { result ≡ number_of options c.now }
    ensures below { result < 64 }
{
    let mut sum = 0;
    for i in 0..options {
        sum = add_option(sum, i, c.is_on(i));
    }
    sum
}
