//! Frames (JVMS 2.6): a row of locals and a row of operands of one scope, at one position of one method.

ghost use Rattle.std.specs.Prelude.{◌≡◌, ◌++◌, ◌&&◌, ◌||◌, ◌<◌, ◌^◌, List, Bool, IfOk, OnErr, OnOk, length, replicate};
ghost use Rattle.vx_space.specs.Sets.{IsKnown, IsSet, Extends};
ghost use Rattle.vx_cond.specs.Cond.{AreDisjoint};
ghost use Rattle.vx_cond.specs.Row.{IsRow};
ghost use Rattle.vx_cond.specs.Slots.{slots_at};
ghost use Rattle.vx_value.specs.Slot.{slot_cmp};
ghost use Rattle.vx_value.specs.declared.slot.Slot.TheVariants.{Top};

use std::alloc::{AllocError, Global};
use vx_cond::{Cond, Projects, Row};
use vx_list::or_cut_back;
use vx_space::{Space, SpaceFault};
use vx_value::{KeyPart, Kind, MethodId, Slot};

/// A frame of a group. The operand on top is the last of the stack; `Top` stands in locals that can't be read.
#[derive(Drop)]
pub struct Frame<S: Space> {
    pub kind: Kind,
    pub method: MethodId,
    pub position: u32,
    pub locals: Row<Slot, S>,
    pub stack: Row<Slot, S>,
}

impl<S: Space> Frame<S> {
    ghost use Rattle.vx_frame.specs.Frame.{IsFrame, IsFrameOf, frame_at, first_frame, part_of, shape_of, scope_of, side_at, frame_ids};

    /// The frame of a method that begins: at position 0, with all locals `Top` and no operands.
    pub fn new(
        alloc: Global,
        space: &S,
        kind: Kind,
        method: MethodId,
        locals: u16,
        scope: S::Id,
    ) -> Result<Frame<S>, AllocError>
        requires { IsKnown (S.sets space.now) scope }
        ensures scope { IfOk result (λ r. scope_of r ≡ scope) }
        ensures shape { IfOk result (λ r. shape_of r ≡ record { part = record { method = method; position = 0; depth = 0; kind = kind }; locals = locals }) }
        ensures ok { IfOk result (IsFrameOf (S.sets space.now) (λ _. first_frame kind method locals)) }
    {
        Ok(Frame {
            kind,
            method,
            position: 0,
            locals: unset_locals(alloc, space, locals, scope)?,
            stack: Row::new(alloc, scope),
        })
    }

    /// The scope of its locals and operands.
    pub fn scope(&self) -> S::Id
        ensures { result ≡ scope_of self.now }
    {
        self.locals.scope()
    }

    /// Its part of a key, for fewer than 2^32 operands.
    pub fn part(&self) -> KeyPart
        requires { length self.now.stack.conds < 2 ^ 32 }
        ensures { result ≡ part_of self.now }
    {
        KeyPart {
            method: self.method,
            position: self.position,
            depth: self.stack.len() as u32,
            kind: self.kind,
        }
    }

    /// The frame inside a condition: at each configuration inside, the plain frame stays.
    pub fn restrict(&self, space: &mut S, within: S::Id) -> Result<Frame<S>, SpaceFault>
        requires valid { IsFrame (S.sets space.old) self.now }
        requires known { IsKnown (S.sets space.old) within }
        ensures extends { Extends (S.sets space.old) (S.sets space.new) }
        ensures scope { IfOk result (λ r. IsSet (S.sets space.new) (scope_of r) (λ c. (S.sets space.old).test (scope_of self.now) c && (S.sets space.old).test within c)) }
        ensures shape { IfOk result (λ r. shape_of r ≡ shape_of self.now) }
        ensures ok { IfOk result (IsFrameOf (S.sets space.new) (frame_at (S.sets space.old) self.now)) }
    {
        let locals = self.locals.restrict(space, within)?;
        let stack = self.stack.restrict(space, within)?;
        Ok(Frame {
            kind: self.kind,
            method: self.method,
            position: self.position,
            locals,
            stack,
        })
    }

    /// Two frames of one shape (kind, method, position, numbers of locals and operands) and disjoint scopes as one: at
    /// each configuration, the plain frame of the side that holds there.
    pub fn join(&self, space: &mut S, other: &Frame<S>) -> Result<Frame<S>, SpaceFault>
        requires first { IsFrame (S.sets space.old) self.now }
        requires second { IsFrame (S.sets space.old) other.now }
        requires shapes { shape_of self.now ≡ shape_of other.now }
        requires disjoint { AreDisjoint (S.sets space.old) (scope_of self.now) (scope_of other.now) }
        ensures extends { Extends (S.sets space.old) (S.sets space.new) }
        ensures scope { IfOk result (λ r. IsSet (S.sets space.new) (scope_of r) (λ c. (S.sets space.old).test (scope_of self.now) c || (S.sets space.old).test (scope_of other.now) c)) }
        ensures shape { IfOk result (λ r. shape_of r ≡ shape_of self.now) }
        ensures ok { IfOk result (IsFrameOf (S.sets space.new) (side_at (S.sets space.old) (scope_of self.now) (frame_at (S.sets space.old) self.now) (frame_at (S.sets space.old) other.now))) }
    {
        let locals = self.locals.join(space, &other.locals)?;
        let stack = self.stack.join(space, &other.stack)?;
        Ok(Frame {
            kind: self.kind,
            method: self.method,
            position: self.position,
            locals,
            stack,
        })
    }

    /// Appends just the ids held: those of the locals, then those of the operands. Want of memory leaves the list as it was.
    #[tactic(auto, using(std::proofs::lemmas::List::append_assoc, std::proofs::lemmas::List::take_at))]
    pub fn ids_out(&self, ids: &mut Vec<S::Id>) -> Result<(), AllocError>
        ensures ok { OnOk result (ids.new.items ≡ ids.old.items ++ frame_ids self.now) }
        ensures err { OnErr result (ids.new.items ≡ ids.old.items) }
    {
        let held = ids.len();
        self.locals.ids_out(ids)?;
        or_cut_back(self.stack.ids_out(ids), ids, held)
    }
}

impl<S: Space> Projects<S> for Frame<S> {
    ghost use Rattle.vx_frame.specs.Frame.{PlainFrame, frame_at, frame_ids};
    ghost use Rattle.vx_frame.specs.Keeping.{frame_at-kept};

    ghost Plain = { PlainFrame };

    ghost ids = { frame_ids };

    ghost plain = { frame_at };

    ghost keeping = { frame_at-kept };

    fn ids_out(&self, out: &mut Vec<S::Id>) -> Result<(), AllocError> {
        Frame::ids_out(self, out)
    }
}

/// So many locals that can't be read.
fn unset_locals<S: Space>(
    alloc: Global,
    space: &S,
    locals: u16,
    scope: S::Id,
) -> Result<Row<Slot, S>, AllocError>
    requires { IsKnown (S.sets space.now) scope }
    ensures scope { IfOk result (λ r. r.scope ≡ scope) }
    ensures length { IfOk result (λ r. length r.conds ≡ locals) }
    ensures row { IfOk result (IsRow slot_cmp (S.sets space.now)) }
    ensures slots { IfOk result (λ r. (c : List Bool) → slots_at (S.sets space.now) r c ≡ replicate locals Top) }
{
    let mut row = Row::new(alloc, scope);
    for _local in 0..locals {
        row.push(Cond::one(alloc, space, Slot::Top, scope)?)?;
    }
    Ok(row)
}
