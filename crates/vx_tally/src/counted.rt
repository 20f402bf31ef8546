//! Numbers in a scope.

ghost use Rattle.std.specs.Prelude.{◌≡◌, ◌++◌, ◌≤◌, ◌&&◌, Bool, IfOk, IsNone, List, OnErr, OnOk, Some, false, nat_le, true, ◌↔◌};
ghost use Rattle.std.specs.Ordering.{nat_cmp};
ghost use Rattle.vx_space.specs.Sets.{IsKnown, IsSet, Extends};
ghost use Rattle.vx_cond.specs.Cond.{AreDisjoint};
ghost use Rattle.vx_cond.specs.Leaves.{AreLeavesOf, value_within, first_of};
ghost use Rattle.vx_tally.specs.Tally.{number_at};

use crate::listing::listed_numbers;
use crate::tally::Tally;
use std::alloc::{AllocError, Global};
use std::marker::Model;
use vx_cond::{Leaf, Projects};
use vx_space::{Config, Space, SpaceFault};

/// A number at each configuration of a scope. The tally is never restricted: outside of the scope it says anything. Contracts see the scope,
/// the tally, and a bound on the numbers in the scope.
#[derive(Drop)]
pub struct Counted<S: Space> {
    scope: S::Id,
    tally: Tally,
    most: u64,
}

impl<S: Space> Model for Counted<S> {
    ghost use Rattle.vx_tally.specs.Counted.{CountedView};

    ghost Value = { CountedView S.Id };

    ghost view = { λ counted. record { scope = counted.scope; tally = counted.tally; most = counted.most } };
}

#[tactic(auto, unfolding(crate::specs::Counted::IsCounted, crate::specs::Counted::IsCountedOf))]
impl<S: Space> Counted<S> {
    ghost use Rattle.vx_tally.specs.Counted.{counted_at, counted_ids, IsCounted, IsCountedOf, IsJoinedTally, IsOneMore, IsTight};

    /// One number in a scope.
    pub fn one(
        alloc: Global,
        space: &S,
        number: u64,
        scope: S::Id,
    ) -> Result<Counted<S>, AllocError>
        requires { IsKnown (S.sets space.now) scope }
        ensures scope { IfOk result (λ r. r.scope ≡ scope) }
        ensures ok { IfOk result (IsCountedOf (S.sets space.now) (value_within (S.sets space.now) scope (λ _. Some number))) }
    {
        let tally = Tally::constant(alloc, number)?;
        Ok(Counted::of(scope, tally, number))
    }

    fn of(scope: S::Id, tally: Tally, most: u64) -> Counted<S>
        ensures { result ≡ record { scope = scope; tally = tally; most = most } }
    {
        Counted { scope, tally, most }
    }

    /// The configurations at which there is a number.
    pub fn scope(&self) -> S::Id
        ensures { result ≡ self.now.scope }
    {
        self.scope
    }

    /// The tally, which says anything outside of the scope.
    pub fn tally(&self) -> &Tally
        ensures { result.now ≡ self.now.tally }
    {
        &self.tally
    }

    /// A bound on the numbers in the scope.
    pub fn most(&self) -> u64
        ensures { result ≡ self.now.most }
    {
        self.most
    }

    /// The number at a configuration, or `None` exactly outside the scope. It takes no memory.
    #[tactic(auto, using(crate::proofs::CountedLaws::counted_read))]
    pub fn at(&self, space: &S, c: &Config) -> Option<u64>
        requires { IsCounted (S.sets space.now) self.now }
        ensures value { result ≡ counted_at (S.sets space.now) self.now c.now }
        ensures none { IsNone result ↔ ((S.sets space.now).test self.now.scope c.now ≡ false) }
    {
        if !space.holds(self.scope(), c) {
            return None;
        }
        Some(self.tally().at(space.options(), c))
    }

    /// The numbers inside a condition; the scope is the part inside.
    pub fn restrict(&self, space: &mut S, within: S::Id) -> Result<Counted<S>, SpaceFault>
        requires valid { IsCounted (S.sets space.old) self.now }
        requires known { IsKnown (S.sets space.old) within }
        ensures extends { Extends (S.sets space.old) (S.sets space.new) }
        ensures ok { IfOk result (IsCountedOf (S.sets space.new) (value_within (S.sets space.old) within (counted_at (S.sets space.old) self.now))) }
    {
        let scope = space.and(self.scope(), within)?;
        let tally = self.tally().same()?;
        Ok(Counted::of(scope, tally, self.most()))
    }

    /// The numbers of both sides, whose scopes are disjoint: at each configuration, that of the side which holds there.
    pub fn join(
        &self,
        alloc: Global,
        space: &mut S,
        other: &Counted<S>,
    ) -> Result<Counted<S>, SpaceFault>
        requires first { IsCounted (S.sets space.old) self.now }
        requires second { IsCounted (S.sets space.old) other.now }
        requires disjoint { AreDisjoint (S.sets space.old) self.now.scope other.now.scope }
        ensures extends { Extends (S.sets space.old) (S.sets space.new) }
        ensures ok { IfOk result (IsCountedOf (S.sets space.new) (first_of (counted_at (S.sets space.old) self.now) (counted_at (S.sets space.old) other.now))) }
    {
        let tally = self.joined(alloc, space, other)?;
        let scope = space.or(self.scope(), other.scope())?;
        let most = self.most().max(other.most());
        Ok(Counted::of(scope, tally, most))
    }

    /// The tally of both sides: that of the first where both are the same.
    fn joined(&self, alloc: Global, space: &S, other: &Counted<S>) -> Result<Tally, AllocError>
        requires first { IsCounted (S.sets space.now) self.now }
        requires second { IsCounted (S.sets space.now) other.now }
        ensures { IfOk result (IsJoinedTally (S.sets space.now) self.now other.now) }
    {
        let one = self.tally();
        let two = other.tally();
        if one.is_same(two) {
            return one.same();
        }
        let tally = Tally::chosen(alloc, space, self.scope(), one, other.scope(), two)?;
        Ok(tally)
    }

    /// One more at each configuration, where that is below 2^64.
    pub fn add_one(&mut self)
        ensures { IsOneMore self.old self.new }
    {
        self.tally.add_one();
        self.most = self.most.saturating_add(1);
    }

    /// Makes `most` the greatest number in the scope, or 0 where the scope is never.
    pub fn tighten(&mut self, alloc: Global, space: &S) -> Result<(), AllocError>
        requires { IsCounted (S.sets space.now) self.old }
        ensures scope { self.new.scope ≡ self.old.scope }
        ensures tally { self.new.tally ≡ self.old.tally }
        ensures valid { IsCounted (S.sets space.now) self.new }
        ensures tight { OnOk result (IsTight (S.sets space.now) self.new) }
        ensures err { OnErr result (self.new ≡ self.old) }
    {
        let most = self.tally().most_in(alloc, space, self.scope())?;
        self.most = most.unwrap_or(0);
        Ok(())
    }

    /// The configurations of the scope at which the number is at least a bound.
    pub fn reaching(&self, alloc: Global, space: &mut S, bound: u64) -> Result<S::Id, SpaceFault>
        requires { IsCounted (S.sets space.old) self.now }
        ensures extends { Extends (S.sets space.old) (S.sets space.new) }
        ensures ok { IfOk result (λ r. IsSet (S.sets space.new) r (λ c. (S.sets space.old).test self.now.scope c && nat_le bound (number_at self.now.tally c))) }
    {
        self.tally().reaching(alloc, space, self.scope(), bound)
    }

    /// Each number with the set in which it is, in ascending order. That takes a walk over the scope and the tally for each number.
    pub fn leaves(&self, alloc: Global, space: &mut S) -> Result<Vec<Leaf<u64, S>>, SpaceFault>
        requires { IsCounted (S.sets space.old) self.now }
        ensures extends { Extends (S.sets space.old) (S.sets space.new) }
        ensures ok { IfOk result (λ r. AreLeavesOf nat_cmp (S.sets space.new) (counted_at (S.sets space.old) self.now) r.items) }
    {
        listed_numbers(alloc, space, self.tally(), self.scope())
    }

    /// Appends just the id held, that of the scope. Want of memory leaves the list as it was.
    pub fn ids_out(&self, ids: &mut Vec<S::Id>) -> Result<(), AllocError>
        ensures ok { OnOk result (ids.new.items ≡ ids.old.items ++ counted_ids self.now) }
        ensures err { OnErr result (ids.new.items ≡ ids.old.items) }
    {
        ids.push(self.scope)?;
        Ok(())
    }
}

impl<S: Space> Projects<S> for Counted<S> {
    ghost use Rattle.std.specs.Prelude.{ℕ, Option};
    ghost use Rattle.vx_tally.specs.Counted.{counted_at, counted_ids, counted_at-kept};

    ghost Plain = { Option ℕ };

    ghost ids = { counted_ids };

    ghost plain = { counted_at };

    ghost keeping = { counted_at-kept };

    fn ids_out(&self, out: &mut Vec<S::Id>) -> Result<(), AllocError> {
        Counted::ids_out(self, out)
    }
}
