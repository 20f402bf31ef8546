//! Conditional values: distinct leaves in ascending value, with nonempty disjoint conditions whose union is the scope.

ghost use Rattle.std.specs.Prelude.{◌≡◌, ◌++◌, [], false, Some, IfOk, IfSome, OnErr, OnOk, IsNone, ◌↔◌, ◌&&◌, ◌||◌};
ghost use Rattle.vx_space.specs.Sets.{IsKnown, IsSet, Extends};

use crate::leaves::{
    conditions_out, copy_leaves, join_leaves, map_leaves, restrict_leaves, value_of_leaves,
    zip_leaves,
};
use crate::projects::Projects;
use std::alloc::{AllocError, Global};
use std::marker::Model;
use vx_list::or_cut_back;
use vx_space::{Config, Space, SpaceFault};
use vx_value::Exact;

/// A value with the condition under which it holds.
#[derive(Drop)]
pub struct Leaf<T: Exact, S: Space> {
    pub value: T,
    pub condition: S::Id,
}

/// A value that depends on the configuration: distinct values in ascending order, whose conditions are nonempty and
/// disjoint and together are the scope. It doesn't hold its space. Contracts see the scope and the list of leaves.
#[derive(Drop)]
pub struct Cond<T: Exact, S: Space> {
    scope: S::Id,
    leaves: Vec<Leaf<T, S>>,
}

impl<T: Exact, S: Space> Model for Cond<T, S> {
    ghost use Rattle.vx_cond.specs.Cond.{Conditional};

    ghost Value = { Conditional T S S.Id };

    ghost view = { λ cond. record { scope = cond.scope; leaves = cond.leaves.items } };
}

#[tactic(auto, unfolding(crate::specs::Cond::IsCond, crate::specs::Cond::IsCondOf, crate::specs::Cond::IsCondLifting, crate::specs::Cond::IsCondLifting2))]
impl<T: Exact, S: Space> Cond<T, S> {
    ghost use Rattle.vx_cond.specs.Leaves.{value_within, first_of};
    ghost use Rattle.vx_cond.specs.Cond.{cond_at, cond_ids, IsCond, IsCondOf, IsCondLifting, IsCondLifting2, AreDisjoint, IsInside};
    ghost use Rattle.vx_cond.specs.Only.{IsOnly};

    /// One value in a scope. With the scope never it has no leaf.
    pub fn one(alloc: Global, space: &S, value: T, scope: S::Id) -> Result<Cond<T, S>, AllocError>
        requires { IsKnown (S.sets space.now) scope }
        ensures scope { IfOk result (λ r. r.scope ≡ scope) }
        ensures ok { IfOk result (IsCondOf T.cmp (S.sets space.now) (value_within (S.sets space.now) scope (λ _. Some value))) }
    {
        if space.is_never(scope) {
            return Ok(Cond::of(scope, Vec::new(alloc)));
        }
        let mut leaves = Vec::with_capacity(alloc, 1)?;
        leaves.push(Leaf {
            value,
            condition: scope,
        })?;
        Ok(Cond::of(scope, leaves))
    }

    fn of(scope: S::Id, leaves: Vec<Leaf<T, S>>) -> Cond<T, S>
        ensures { result ≡ record { scope = scope; leaves = leaves.items } }
    {
        Cond { scope, leaves }
    }

    /// The same value once more.
    fn copied(&self) -> Result<Cond<T, S>, AllocError>
        ensures { IfOk result (λ r. r ≡ self.now) }
    {
        let leaves = copy_leaves(self.allocator(), self.leaves())?;
        Ok(Cond::of(self.scope(), leaves))
    }

    /// No value, which needs a scope without configurations.
    fn nothing(&self, scope: S::Id) -> Cond<T, S>
        ensures { result ≡ record { scope = scope; leaves = [] } }
    {
        Cond::of(scope, Vec::new(self.allocator()))
    }

    /// The allocator of the leaves.
    fn allocator(&self) -> Global {
        *self.leaves.allocator()
    }

    /// The value of the only leaf, where there is one leaf.
    fn only(&self) -> Option<T>
        ensures { IfSome result (λ value. IsOnly value self.now.leaves) }
    {
        let leaves = self.leaves();
        if leaves.len() == 1 {
            return Some(leaves[0].value);
        }
        None
    }

    /// The values of the only leaves of both.
    fn only_two<U: Exact>(&self, other: &Cond<U, S>) -> Option<(T, U)>
        ensures { IfSome result (λ r. IsOnly r.0 self.now.leaves × IsOnly r.1 other.now.leaves) }
    {
        match self.only() {
            Some(first) => match other.only() {
                Some(second) => Some((first, second)),
                None => None,
            },
            None => None,
        }
    }

    /// The value of the only leaves of both, where it is the same.
    fn shared(&self, other: &Cond<T, S>) -> Option<T>
        ensures { IfSome result (λ value. IsOnly value self.now.leaves × IsOnly value other.now.leaves) }
    {
        match self.only_two(other) {
            Some((first, second)) => {
                if first.cmp(&second).is_eq() {
                    return Some(first);
                }
                None
            }
            None => None,
        }
    }

    /// The configurations at which there is a value.
    pub fn scope(&self) -> S::Id
        ensures { result ≡ self.now.scope }
    {
        self.scope
    }

    /// The leaves, in ascending value.
    pub fn leaves(&self) -> &[Leaf<T, S>]
        ensures { result.now ≡ self.now.leaves }
    {
        self.leaves.as_slice()
    }

    /// The value at a configuration, or `None` exactly outside the scope. It takes no memory.
    pub fn at(&self, space: &S, c: &Config) -> Option<T>
        requires { IsCond T.cmp (S.sets space.now) self.now }
        ensures value { result ≡ cond_at (S.sets space.now) self.now c.now }
        ensures none { IsNone result ↔ ((S.sets space.now).test self.now.scope c.now ≡ false) }
    {
        value_of_leaves(space, self.leaves(), c)
    }

    /// The values inside a condition; the scope is the part inside.
    #[tactic(auto, using(crate::proofs::CondLaws::conds), unfolding(crate::specs::Cond::IsCond, crate::specs::Cond::IsCondOf, crate::specs::Cond::IsCondLifting, crate::specs::Cond::IsCondLifting2))]
    pub fn restrict(&self, space: &mut S, within: S::Id) -> Result<Cond<T, S>, SpaceFault>
        requires valid { IsCond T.cmp (S.sets space.old) self.now }
        requires known { IsKnown (S.sets space.old) within }
        ensures extends { Extends (S.sets space.old) (S.sets space.new) }
        ensures ok { IfOk result (IsCondOf T.cmp (S.sets space.new) (value_within (S.sets space.old) within (cond_at (S.sets space.old) self.now))) }
    {
        let scope = space.and(self.scope(), within)?;
        self.inside(space, within, scope)
    }

    /// The values inside a condition, with the scope that they then have. One leaf stays the only one, and asks nothing of the space.
    pub(crate) fn inside(
        &self,
        space: &mut S,
        within: S::Id,
        scope: S::Id,
    ) -> Result<Cond<T, S>, SpaceFault>
        requires valid { IsCond T.cmp (S.sets space.old) self.now }
        requires known { IsKnown (S.sets space.old) within }
        requires scope { IsSet (S.sets space.old) scope (λ c. (S.sets space.old).test self.now.scope c && (S.sets space.old).test within c) }
        ensures extends { Extends (S.sets space.old) (S.sets space.new) }
        ensures scope { IfOk result (λ r. r.scope ≡ scope) }
        ensures ok { IfOk result (IsCondOf T.cmp (S.sets space.new) (value_within (S.sets space.old) within (cond_at (S.sets space.old) self.now))) }
    {
        if let Some(value) = self.only() {
            let one = Cond::one(self.allocator(), space, value, scope)?;
            return Ok(one);
        }
        if space.is_never(scope) {
            return Ok(self.nothing(scope));
        }
        if scope == self.scope() {
            let same = self.copied()?;
            return Ok(same);
        }
        let leaves = restrict_leaves(self.allocator(), space, self.leaves(), within)?;
        Ok(Cond::of(scope, leaves))
    }

    /// The values of both sides, whose scopes are disjoint: at each configuration, that of the side which holds there.
    #[tactic(auto, using(crate::proofs::CondLaws::conds), unfolding(crate::specs::Cond::IsCond, crate::specs::Cond::IsCondOf, crate::specs::Cond::IsCondLifting, crate::specs::Cond::IsCondLifting2))]
    pub fn join(&self, space: &mut S, other: &Cond<T, S>) -> Result<Cond<T, S>, SpaceFault>
        requires first { IsCond T.cmp (S.sets space.old) self.now }
        requires second { IsCond T.cmp (S.sets space.old) other.now }
        requires disjoint { AreDisjoint (S.sets space.old) self.now.scope other.now.scope }
        ensures extends { Extends (S.sets space.old) (S.sets space.new) }
        ensures ok { IfOk result (IsCondOf T.cmp (S.sets space.new) (first_of (cond_at (S.sets space.old) self.now) (cond_at (S.sets space.old) other.now))) }
    {
        let scope = space.or(self.scope(), other.scope())?;
        self.joined(space, other, scope)
    }

    /// The values of both sides, with the scope that they then have. One value that both have asks nothing of the space.
    pub(crate) fn joined(
        &self,
        space: &mut S,
        other: &Cond<T, S>,
        scope: S::Id,
    ) -> Result<Cond<T, S>, SpaceFault>
        requires first { IsCond T.cmp (S.sets space.old) self.now }
        requires second { IsCond T.cmp (S.sets space.old) other.now }
        requires disjoint { AreDisjoint (S.sets space.old) self.now.scope other.now.scope }
        requires scope { IsSet (S.sets space.old) scope (λ c. (S.sets space.old).test self.now.scope c || (S.sets space.old).test other.now.scope c) }
        ensures extends { Extends (S.sets space.old) (S.sets space.new) }
        ensures scope { IfOk result (λ r. r.scope ≡ scope) }
        ensures ok { IfOk result (IsCondOf T.cmp (S.sets space.new) (first_of (cond_at (S.sets space.old) self.now) (cond_at (S.sets space.old) other.now))) }
    {
        if let Some(value) = self.shared(other) {
            let one = Cond::one(self.allocator(), space, value, scope)?;
            return Ok(one);
        }
        let leaves = join_leaves(self.allocator(), space, self.leaves(), other.leaves())?;
        Ok(Cond::of(scope, leaves))
    }

    /// The new values in their scope, which is inside, and the old ones elsewhere.
    #[tactic(auto, using(crate::proofs::CondLaws::conds), unfolding(crate::specs::Cond::IsCond, crate::specs::Cond::IsCondOf, crate::specs::Cond::IsCondLifting, crate::specs::Cond::IsCondLifting2))]
    pub fn overwrite(&self, space: &mut S, new: &Cond<T, S>) -> Result<Cond<T, S>, SpaceFault>
        requires old { IsCond T.cmp (S.sets space.old) self.now }
        requires new { IsCond T.cmp (S.sets space.old) new.now }
        requires inside { IsInside (S.sets space.old) new.now.scope self.now.scope }
        ensures extends { Extends (S.sets space.old) (S.sets space.new) }
        ensures ok { IfOk result (IsCondOf T.cmp (S.sets space.new) (first_of (cond_at (S.sets space.old) new.now) (cond_at (S.sets space.old) self.now))) }
    {
        if new.scope() == self.scope() {
            let same = new.copied()?;
            return Ok(same);
        }
        let rest = space.minus(self.scope(), new.scope())?;
        let kept = self.restrict(space, rest)?;
        new.join(space, &kept)
    }

    /// The function's value at each configuration of the scope. Values that the function makes equal share one leaf.
    pub fn map<U: Exact, F: Fn(T) -> U>(
        &self,
        space: &mut S,
        f: F,
    ) -> Result<Cond<U, S>, SpaceFault>
        requires valid { IsCond T.cmp (S.sets space.old) self.now }
        requires callable { F.IsAlwaysCallable f }
        ensures extends { Extends (S.sets space.old) (S.sets space.new) }
        ensures scope { IfOk result (λ r. r.scope ≡ self.now.scope) }
        ensures ok { IfOk result (IsCondLifting U.cmp (S.sets space.new) (F.post f) (cond_at (S.sets space.old) self.now)) }
    {
        if let Some(value) = self.only() {
            let made = f(value);
            let one = Cond::one(self.allocator(), space, made, self.scope())?;
            return Ok(one);
        }
        let leaves = map_leaves(self.allocator(), space, self.leaves(), f)?;
        Ok(Cond::of(self.scope(), leaves))
    }

    /// The function's value of two conditional values of one scope, at each configuration of it.
    pub fn zip<U: Exact, V: Exact, F: Fn(T, U) -> V>(
        &self,
        space: &mut S,
        other: &Cond<U, S>,
        f: F,
    ) -> Result<Cond<V, S>, SpaceFault>
        requires first { IsCond T.cmp (S.sets space.old) self.now }
        requires second { IsCond U.cmp (S.sets space.old) other.now }
        requires scopes { self.now.scope ≡ other.now.scope }
        requires callable { F.IsAlwaysCallable f }
        ensures extends { Extends (S.sets space.old) (S.sets space.new) }
        ensures scope { IfOk result (λ r. r.scope ≡ self.now.scope) }
        ensures ok { IfOk result (IsCondLifting2 V.cmp (S.sets space.new) (F.post f) (cond_at (S.sets space.old) self.now) (cond_at (S.sets space.old) other.now)) }
    {
        if let Some((first, second)) = self.only_two(other) {
            let value = f(first, second);
            let one = Cond::one(self.allocator(), space, value, self.scope())?;
            return Ok(one);
        }
        let leaves = zip_leaves(self.allocator(), space, self.leaves(), other.leaves(), &f)?;
        Ok(Cond::of(self.scope(), leaves))
    }

    /// Appends just the ids held: the scope, then the conditions of the leaves. Want of memory leaves the list as it was.
    #[tactic(auto, using(std::proofs::lemmas::List::append_assoc, std::proofs::lemmas::List::take_at))]
    pub fn ids_out(&self, ids: &mut Vec<S::Id>) -> Result<(), AllocError>
        ensures ok { OnOk result (ids.new.items ≡ ids.old.items ++ cond_ids self.now) }
        ensures err { OnErr result (ids.new.items ≡ ids.old.items) }
    {
        let held = ids.len();
        ids.push(self.scope())?;
        or_cut_back(conditions_out(self.leaves(), ids), ids, held)
    }
}

impl<T: Exact, S: Space> Projects<S> for Cond<T, S> {
    ghost use Rattle.std.specs.Prelude.{Option};
    ghost use Rattle.vx_cond.specs.Cond.{cond_at, cond_ids};
    ghost use Rattle.vx_cond.specs.Keeping.{cond_at-kept};

    ghost Plain = { Option T };

    ghost ids = { cond_ids };

    ghost plain = { cond_at };

    ghost keeping = { cond_at-kept };

    fn ids_out(&self, out: &mut Vec<S::Id>) -> Result<(), AllocError> {
        Cond::ids_out(self, out)
    }
}
