//! Rows: conditional values of one scope, in order, as locals, operands and cells.

ghost use Rattle.std.specs.Prelude.{◌≡◌, ◌++◌, ◌+◌, ◌<◌, List, [], ◌∷◌, Some, length, IfOk, OnOk, OnErr, IsNone, IfSome, ◌↔◌, slice_get, slice_set, Bool, ◌&&◌, ◌||◌};
ghost use Rattle.vx_space.specs.Sets.{IsKnown, IsSet, Extends};
ghost use Rattle.vx_cond.specs.Cond.{AreDisjoint};
ghost use Rattle.vx_cond.specs.Row.{IsRow, IsRowOf, AreConds, conds_at, values_within, firsts_of, row_ids};

use crate::cond::Cond;
use crate::projects::Projects;
use std::alloc::{AllocError, Global};
use std::marker::Model;
use vx_list::or_cut_back;
use vx_space::{Space, SpaceFault};
use vx_value::Exact;

/// A list of conditional values of one scope. Contracts see the scope and the list.
#[derive(Drop)]
pub struct Row<T: Exact, S: Space> {
    scope: S::Id,
    conds: Vec<Cond<T, S>>,
}

impl<T: Exact, S: Space> Model for Row<T, S> {
    ghost use Rattle.vx_cond.specs.Row.{Conditionals};

    ghost Value = { Conditionals T S S.Id };

    ghost view = { λ row. record { scope = row.scope; conds = row.conds.items } };
}

impl<T: Exact, S: Space> Row<T, S> {
    /// The empty list with this scope.
    pub fn new(alloc: Global, scope: S::Id) -> Row<T, S>
        ensures { result ≡ record { scope = scope; conds = [] } }
    {
        Row {
            scope,
            conds: Vec::new(alloc),
        }
    }

    /// How many conditional values there are.
    pub fn len(&self) -> usize
        ensures { result ≡ length self.now.conds }
    {
        self.conds.len()
    }

    /// The conditional value at a place.
    pub fn get(&self, i: usize) -> &Cond<T, S>
        requires { i < length self.now.conds }
        ensures { Some result.now ≡ slice_get self.now.conds i }
    {
        &self.conds[i]
    }

    /// Puts a conditional value at a place. With another scope than the row's, the row is no longer one of one scope.
    pub fn set(&mut self, i: usize, value: Cond<T, S>)
        requires in_range { i < length self.old.conds }
        ensures { self.new ≡ record self.old { conds = slice_set self.old.conds i value } }
    {
        self.conds[i] = value;
    }

    /// Appends a conditional value. With another scope than the row's, the row is no longer one of one scope. Want of
    /// memory leaves the row as it was.
    pub fn push(&mut self, value: Cond<T, S>) -> Result<(), AllocError>
        ensures ok { OnOk result (self.new ≡ record self.old { conds = self.old.conds ++ value ∷ [] }) }
        ensures err { OnErr result (self.new ≡ self.old) }
    {
        self.conds.push(value)?;
        Ok(())
    }

    /// Takes the last conditional value off, or `None` exactly when there is none.
    pub fn pop(&mut self) -> Option<Cond<T, S>>
        ensures none { IsNone result ↔ (self.old.conds ≡ []) }
        ensures unchanged { IsNone result → self.new ≡ self.old }
        ensures some { IfSome result (λ cond. self.old ≡ record self.new { conds = self.new.conds ++ cond ∷ [] }) }
    {
        self.conds.pop()
    }

    fn of(scope: S::Id, conds: Vec<Cond<T, S>>) -> Row<T, S>
        ensures { result ≡ record { scope = scope; conds = conds.items } }
    {
        Row { scope, conds }
    }

    fn allocator(&self) -> Global {
        *self.conds.allocator()
    }

    /// The scope that all have.
    pub fn scope(&self) -> S::Id
        ensures { result ≡ self.now.scope }
    {
        self.scope
    }

    fn conds(&self) -> &[Cond<T, S>]
        ensures { result.now ≡ self.now.conds }
    {
        self.conds.as_slice()
    }

    /// Each conditional value inside a condition.
    #[tactic(auto, using(crate::proofs::RowLaws::rows), unfolding(crate::specs::Cond::IsCond, crate::specs::Cond::IsCondOf, crate::specs::Row::IsRow, crate::specs::Row::IsRowOf))]
    pub fn restrict(&self, space: &mut S, within: S::Id) -> Result<Row<T, S>, SpaceFault>
        requires valid { IsRow T.cmp (S.sets space.old) self.now }
        requires known { IsKnown (S.sets space.old) within }
        ensures extends { Extends (S.sets space.old) (S.sets space.new) }
        ensures scope { IfOk result (λ r. IsSet (S.sets space.new) r.scope (λ c. (S.sets space.old).test self.now.scope c && (S.sets space.old).test within c)) }
        ensures ok { IfOk result (IsRowOf T.cmp (S.sets space.new) (values_within (S.sets space.old) within (conds_at (S.sets space.old) self.now.conds))) }
    {
        let scope = space.and(self.scope(), within)?;
        let conds = restrict_conds(
            self.allocator(),
            space,
            self.conds(),
            self.scope(),
            within,
            scope,
        )?;
        Ok(Row::of(scope, conds))
    }

    /// Two rows of equal length and disjoint scopes, joined place by place.
    #[tactic(auto, using(crate::proofs::RowLaws::rows), unfolding(crate::specs::Cond::IsCond, crate::specs::Cond::IsCondOf, crate::specs::Row::IsRow, crate::specs::Row::IsRowOf))]
    pub fn join(&self, space: &mut S, other: &Row<T, S>) -> Result<Row<T, S>, SpaceFault>
        requires first { IsRow T.cmp (S.sets space.old) self.now }
        requires second { IsRow T.cmp (S.sets space.old) other.now }
        requires lengths { length self.now.conds ≡ length other.now.conds }
        requires disjoint { AreDisjoint (S.sets space.old) self.now.scope other.now.scope }
        ensures extends { Extends (S.sets space.old) (S.sets space.new) }
        ensures scope { IfOk result (λ r. IsSet (S.sets space.new) r.scope (λ c. (S.sets space.old).test self.now.scope c || (S.sets space.old).test other.now.scope c)) }
        ensures ok { IfOk result (IsRowOf T.cmp (S.sets space.new) (firsts_of (conds_at (S.sets space.old) self.now.conds) (conds_at (S.sets space.old) other.now.conds))) }
    {
        let scope = space.or(self.scope(), other.scope())?;
        let conds = join_conds(
            self.allocator(),
            space,
            self.conds(),
            other.conds(),
            self.scope(),
            other.scope(),
            scope,
        )?;
        Ok(Row::of(scope, conds))
    }

    /// Appends just the ids held: the scope, then those of each conditional value. Want of memory leaves the list as it was.
    #[tactic(auto, using(std::proofs::lemmas::List::append_assoc, std::proofs::lemmas::List::take_at))]
    pub fn ids_out(&self, ids: &mut Vec<S::Id>) -> Result<(), AllocError>
        ensures ok { OnOk result (ids.new.items ≡ ids.old.items ++ row_ids self.now) }
        ensures err { OnErr result (ids.new.items ≡ ids.old.items) }
    {
        let held = ids.len();
        ids.push(self.scope())?;
        for cond in self.conds() {
            or_cut_back(cond.ids_out(ids), ids, held)?;
        }
        Ok(())
    }
}

impl<T: Exact, S: Space> Projects<S> for Row<T, S> {
    ghost use Rattle.std.specs.Prelude.{Option};
    ghost use Rattle.vx_cond.specs.Row.{row_at, row_ids};
    ghost use Rattle.vx_cond.specs.Keeping.{row_at-kept};

    ghost Plain = { List (Option T) };

    ghost ids = { row_ids };

    ghost plain = { row_at };

    ghost keeping = { row_at-kept };

    fn ids_out(&self, out: &mut Vec<S::Id>) -> Result<(), AllocError> {
        Row::ids_out(self, out)
    }
}

/// Each conditional value inside a condition, with the scope that they then have.
#[tactic(auto, using(crate::proofs::RowLaws::rows), unfolding(crate::specs::Cond::IsCond, crate::specs::Cond::IsCondOf, crate::specs::Row::IsRow, crate::specs::Row::IsRowOf))]
fn restrict_conds<T: Exact, S: Space>(
    alloc: Global,
    space: &mut S,
    conds: &[Cond<T, S>],
    scope: S::Id,
    within: S::Id,
    inner: S::Id,
) -> Result<Vec<Cond<T, S>>, SpaceFault>
    requires conds { AreConds T.cmp (S.sets space.old) scope conds.now }
    requires known { IsKnown (S.sets space.old) within }
    requires inner { IsSet (S.sets space.old) inner (λ c. (S.sets space.old).test scope c && (S.sets space.old).test within c) }
    ensures extends { Extends (S.sets space.old) (S.sets space.new) }
    ensures conds { IfOk result (λ r. AreConds T.cmp (S.sets space.new) inner r.items) }
    ensures values { IfOk result (λ r. (c : List Bool) → conds_at (S.sets space.new) r.items c ≡ values_within (S.sets space.old) within (conds_at (S.sets space.old) conds.now) c) }
{
    let mut made = Vec::with_capacity(alloc, conds.len())?;
    for cond in conds {
        let part = cond.inside(space, within, inner)?;
        made.push(part)?;
    }
    Ok(made)
}

/// Joined place by place, with the scope that they then have.
#[tactic(auto, using(crate::proofs::RowLaws::rows), unfolding(crate::specs::Cond::IsCond, crate::specs::Cond::IsCondOf, crate::specs::Row::IsRow, crate::specs::Row::IsRowOf))]
fn join_conds<T: Exact, S: Space>(
    alloc: Global,
    space: &mut S,
    conds: &[Cond<T, S>],
    others: &[Cond<T, S>],
    first: S::Id,
    second: S::Id,
    outer: S::Id,
) -> Result<Vec<Cond<T, S>>, SpaceFault>
    requires conds { AreConds T.cmp (S.sets space.old) first conds.now }
    requires others { AreConds T.cmp (S.sets space.old) second others.now }
    requires lengths { length conds.now ≡ length others.now }
    requires disjoint { AreDisjoint (S.sets space.old) first second }
    requires outer { IsSet (S.sets space.old) outer (λ c. (S.sets space.old).test first c || (S.sets space.old).test second c) }
    ensures extends { Extends (S.sets space.old) (S.sets space.new) }
    ensures conds { IfOk result (λ r. AreConds T.cmp (S.sets space.new) outer r.items) }
    ensures values { IfOk result (λ r. (c : List Bool) → conds_at (S.sets space.new) r.items c ≡ firsts_of (conds_at (S.sets space.old) conds.now) (conds_at (S.sets space.old) others.now) c) }
{
    let mut made = Vec::with_capacity(alloc, conds.len())?;
    for i in 0..conds.len() {
        let part = conds[i].joined(space, &others[i], outer)?;
        made.push(part)?;
    }
    Ok(made)
}
