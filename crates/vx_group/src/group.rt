//! Groups: a path of configurations at one key, with their attempts and their frames.

ghost use Rattle.std.specs.Prelude.{◌≡◌, ◌∷◌, [], ◌++◌, ◌&&◌, ◌||◌, ◌↔◌, ◌<◌, ◌^◌, ◌+◌, IsTrue, not, ℕ, suc, true, length, List, Bool, IfOk, IfSome, IsNone, None, Ok, OnOk, OnErr};
ghost use Rattle.vx_space.specs.Sets.{IsKnown, IsSet, Extends};
ghost use Rattle.vx_cond.specs.Cond.{AreDisjoint};
ghost use Rattle.vx_frame.specs.Frame.{IsFrame, scope_of, side_at};

use crate::callers::{Caller, Callers};
use crate::joins::{Reach, frame_inside, join_callers};
use crate::parts::{Parts, is_same_part};
use std::alloc::{AllocError, Global};
use std::marker::Model;
use std::mem;
use vx_cond::{Cond, Projects};
use vx_frame::Frame;
use vx_list::or_cut_back;
use vx_space::{Space, SpaceFault};
use vx_value::Key;

/// Configurations whose runs stand at one key: their attempts, whose scope is the path, the frame on top, and the callers
/// in a tree that all groups share. It has fewer than 2^32 frames, each with fewer than 2^32 operands.
#[derive(Drop)]
pub struct Group<S: Space> {
    attempts: Cond<u64, S>,
    top: Frame<S>,
    below: Parts,
    caller: Option<usize>,
}

impl<S: Space> Model for Group<S> {
    ghost use Rattle.std.specs.Prelude.{ℕ, ◌<◌, ◌^◌, suc, length};
    ghost use Rattle.vx_group.specs.Group.{GroupView};

    ghost Value = { GroupView S S.Id };

    ghost view = { λ g. record { attempts = g.attempts; top = g.top; below = g.below; caller = g.caller } };

    ghost invariant = { λ g. (suc (length g.below) < 2 ^ 32) × (length g.top.stack.conds < 2 ^ 32) };
}

/// A group without its frame on top.
#[derive(Drop)]
pub struct Below<S: Space> {
    attempts: Cond<u64, S>,
    below: Parts,
    caller: Option<usize>,
}

impl<S: Space> Model for Below<S> {
    ghost use Rattle.std.specs.Prelude.{ℕ, ◌<◌, ◌^◌, suc, length};
    ghost use Rattle.vx_group.specs.Group.{BelowView};

    ghost Value = { BelowView S S.Id };

    ghost view = { λ g. record { attempts = g.attempts; below = g.below; caller = g.caller } };

    ghost invariant = { λ g. suc (length g.below) < 2 ^ 32 };
}

impl<S: Space> Below<S> {
    /// Puts a frame on. Its scope is the path.
    pub fn put_top(self, frame: Frame<S>) -> Group<S>
        requires scope { scope_of frame ≡ self.attempts.scope }
        requires operands { length frame.stack.conds < 2 ^ 32 }
        ensures { result ≡ record { attempts = self.attempts; top = frame; below = self.below; caller = self.caller } }
    {
        let Below {
            attempts,
            below,
            caller,
        } = self;
        Group {
            attempts,
            top: frame,
            below,
            caller,
        }
    }
}

impl<S: Space> Group<S> {
    ghost use Rattle.vx_group.specs.Callers.{Keeps};
    ghost use Rattle.vx_group.specs.Group.{path_of, depth_of, key_of, stack_of, shapes_of, group_at, attempts_at, group_ids, IsGroup, IsGroupIn, IsGroupOf, IsPartOf, IsPopped};

    /// The group of one frame. The scope of the attempts is the path, and the frame's scope too.
    pub fn new(alloc: Global, attempts: Cond<u64, S>, frame: Frame<S>) -> Group<S>
        requires scope { scope_of frame ≡ attempts.scope }
        requires operands { length frame.stack.conds < 2 ^ 32 }
        ensures { result ≡ record { attempts = attempts; top = frame; below = []; caller = None } }
    {
        Group {
            attempts,
            top: frame,
            below: Parts::new(alloc),
            caller: None,
        }
    }

    /// The configurations of the group.
    pub fn path(&self) -> S::Id
        ensures { result ≡ path_of self.now }
    {
        self.attempts.scope()
    }

    /// How many attempts each configuration has used.
    pub fn attempts(&self) -> &Cond<u64, S>
        ensures { result.now ≡ self.now.attempts }
    {
        &self.attempts
    }

    /// How many frames it has.
    pub fn depth(&self) -> u32
        ensures { result ≡ depth_of self.now }
    {
        self.below.len() as u32 + 1
    }

    /// The frame on top.
    pub fn top_frame(&self) -> &Frame<S>
        ensures { result.now ≡ self.now.top }
    {
        &self.top
    }

    /// The parts of its frames, from bottom to top.
    pub fn key(&self) -> Result<Key, AllocError>
        ensures { IfOk result (λ key. key ≡ key_of self.now) }
    {
        self.below.key(self.top.part())
    }

    /// Whether its key is that of another group. It takes no memory.
    pub fn has_key_of(&self, other: &Group<S>) -> bool
        ensures { IsTrue result ↔ (key_of self.now ≡ key_of other.now) }
    {
        if !is_same_part(self.top.part(), other.top.part()) {
            return false;
        }
        self.below.are(&other.below)
    }

    /// Takes the frame on top off, by a move. The frames below stay.
    pub fn take_top(self) -> (Below<S>, Frame<S>)
        ensures { result ≡ (record { attempts = self.attempts; below = self.below; caller = self.caller }, self.top) }
    {
        let Group {
            attempts,
            top,
            below,
            caller,
        } = self;
        (
            Below {
                attempts,
                below,
                caller,
            },
            top,
        )
    }

    /// Puts a frame on; the frame that was on top becomes a node of the tree. Want of memory leaves group and tree as they
    /// were.
    pub fn push(
        &mut self,
        callers: &mut Callers<S>,
        space: &S,
        frame: Frame<S>,
    ) -> Result<(), AllocError>
        requires group { IsGroupIn (S.sets space.now) callers.old self.old }
        requires frame { IsFrame (S.sets space.now) frame }
        requires scope { scope_of frame ≡ path_of self.old }
        requires depth { suc (depth_of self.old) < 2 ^ 32 }
        requires operands { length frame.stack.conds < 2 ^ 32 }
        ensures keeps { Keeps callers.old callers.new }
        ensures valid { OnOk result (IsGroupIn (S.sets space.now) callers.new self.new) }
        ensures attempts { OnOk result (self.new.attempts ≡ self.old.attempts) }
        ensures stack { OnOk result (stack_of callers.new self.new ≡ frame ∷ stack_of callers.old self.old) }
        ensures err { OnErr result ((self.new ≡ self.old) × (callers.new ≡ callers.old)) }
    {
        callers.nodes.reserve(1)?;
        self.below.push(self.top.part())?;
        let top = mem::replace(&mut self.top, frame);
        let number = callers.nodes.insert_reserved(Caller {
            frame: top,
            caller: self.caller,
        });
        self.caller = Some(number);
        Ok(())
    }

    /// Takes the frame on top off; the caller's frame, restricted to the path, is on top then. `None` exactly where there
    /// is one frame, and then nothing changes. No call changes the tree here.
    pub fn pop(
        &mut self,
        callers: &mut Callers<S>,
        space: &mut S,
    ) -> Result<Option<Frame<S>>, SpaceFault>
        requires group { IsGroupIn (S.sets space.old) callers.old self.old }
        ensures extends { Extends (S.sets space.old) (S.sets space.new) }
        ensures tree { callers.new ≡ callers.old }
        ensures none { IfOk result (λ r. IsNone r ↔ (self.old.below ≡ [])) }
        ensures unchanged { result ≡ Ok None → (self.new ≡ self.old) × (S.sets space.new ≡ S.sets space.old) }
        ensures some { IfOk result (λ r. IfSome r (λ frame. IsPopped (S.sets space.old) (S.sets space.new) callers.new self.old frame self.new)) }
    {
        let Some(number) = self.caller else {
            return Ok(None);
        };
        let Some(node) = callers.get(number) else {
            unreachable!()
        };
        let frame = frame_inside(&node.frame, space, self.attempts.scope())?;
        self.caller = node.caller;
        self.below.pop();
        Ok(Some(mem::replace(&mut self.top, frame)))
    }

    /// Adds one attempt in every configuration; each has used fewer than the greatest u64.
    pub fn spend(&mut self, space: &mut S) -> Result<(), SpaceFault>
        requires group { IsGroup (S.sets space.old) self.old }
        requires below { (c : List Bool) → (S.sets space.old).test (path_of self.old) c ≡ true → suc (attempts_at (S.sets space.old) self.old c) < 2 ^ 64 }
        ensures extends { Extends (S.sets space.old) (S.sets space.new) }
        ensures valid { OnOk result (IsGroup (S.sets space.new) self.new) }
        ensures same { OnOk result (self.new ≡ record self.old { attempts = self.new.attempts }) }
        ensures path { OnOk result (path_of self.new ≡ path_of self.old) }
        ensures attempts { OnOk result ((c : List Bool) → (S.sets space.old).test (path_of self.old) c ≡ true → attempts_at (S.sets space.new) self.new c ≡ attempts_at (S.sets space.old) self.old c + 1) }
    {
        let one_more = |n: u64| -> u64
            ensures { suc n < 2 ^ 64 → result ≡ n + 1 }
        { n.saturating_add(1) };
        self.attempts = self.attempts.map(space, one_more)?;
        Ok(())
    }

    /// The part of the group inside a condition.
    fn inside(&self, space: &mut S, within: S::Id) -> Result<Group<S>, SpaceFault>
        requires group { IsGroup (S.sets space.old) self.now }
        requires known { IsKnown (S.sets space.old) within }
        ensures extends { Extends (S.sets space.old) (S.sets space.new) }
        ensures ok { IfOk result (IsPartOf (S.sets space.old) (S.sets space.new) (λ c. (S.sets space.old).test (path_of self.now) c && (S.sets space.old).test within c) self.now) }
    {
        let attempts = self.attempts.restrict(space, within)?;
        let top = self.top.restrict(space, within)?;
        Ok(Group {
            attempts,
            top,
            below: self.below.copy()?,
            caller: self.caller,
        })
    }

    /// Cuts off the part outside a condition, and keeps the part inside it. No caller frame is copied, and where the whole group is
    /// inside, it stays as it is.
    fn cut_off(&mut self, space: &mut S, within: S::Id) -> Result<Group<S>, SpaceFault>
        requires group { IsGroup (S.sets space.old) self.old }
        requires known { IsKnown (S.sets space.old) within }
        ensures extends { Extends (S.sets space.old) (S.sets space.new) }
        ensures inside { OnOk result (IsPartOf (S.sets space.old) (S.sets space.new) (λ c. (S.sets space.old).test (path_of self.old) c && (S.sets space.old).test within c) self.old self.new) }
        ensures outside { IfOk result (IsPartOf (S.sets space.old) (S.sets space.new) (λ c. (S.sets space.old).test (path_of self.old) c && not ((S.sets space.old).test within c)) self.old) }
    {
        let rest = space.minus(self.path(), within)?;
        let outer = self.inside(space, rest)?;
        if space.is_never(rest) {
            return Ok(outer);
        }
        *self = self.inside(space, within)?;
        Ok(outer)
    }

    /// The parts of the group inside and outside a condition. No caller frame is copied, and where the whole group is inside it, it
    /// stays as it is.
    pub fn split(mut self, space: &mut S, within: S::Id) -> Result<(Group<S>, Group<S>), SpaceFault>
        requires group { IsGroup (S.sets space.old) self }
        requires known { IsKnown (S.sets space.old) within }
        ensures extends { Extends (S.sets space.old) (S.sets space.new) }
        ensures inside { IfOk result (λ r. IsPartOf (S.sets space.old) (S.sets space.new) (λ c. (S.sets space.old).test (path_of self) c && (S.sets space.old).test within c) self r.0) }
        ensures outside { IfOk result (λ r. IsPartOf (S.sets space.old) (S.sets space.new) (λ c. (S.sets space.old).test (path_of self) c && not ((S.sets space.old).test within c)) self r.1) }
    {
        let outer = self.cut_off(space, within)?;
        Ok((self, outer))
    }

    /// Takes in another group of an equal key, of equally many locals in each two frames at one height, and of a disjoint path.
    fn take_in(
        &mut self,
        callers: &mut Callers<S>,
        space: &mut S,
        other: &Group<S>,
    ) -> Result<(), SpaceFault>
        requires first { IsGroupIn (S.sets space.old) callers.old self.old }
        requires second { IsGroupIn (S.sets space.old) callers.old other.now }
        requires shapes { shapes_of callers.old self.old ≡ shapes_of callers.old other.now }
        requires disjoint { AreDisjoint (S.sets space.old) (path_of self.old) (path_of other.now) }
        ensures extends { Extends (S.sets space.old) (S.sets space.new) }
        ensures keeps { Keeps callers.old callers.new }
        ensures path { OnOk result (IsSet (S.sets space.new) (path_of self.new) (λ c. (S.sets space.old).test (path_of self.old) c || (S.sets space.old).test (path_of other.now) c)) }
        ensures shapes { OnOk result (shapes_of callers.new self.new ≡ shapes_of callers.old self.old) }
        ensures ok { OnOk result (IsGroupOf (S.sets space.new) callers.new (side_at (S.sets space.old) (path_of self.old) (group_at (S.sets space.old) callers.old self.old) (group_at (S.sets space.old) callers.old other.now)) self.new) }
        ensures shared { self.old.caller ≡ other.now.caller → (callers.new ≡ callers.old) × OnOk result (self.new.caller ≡ self.old.caller) }
    {
        let first = Reach {
            path: self.path(),
            caller: self.caller,
        };
        let second = Reach {
            path: other.path(),
            caller: other.caller,
        };
        let attempts = self.attempts.join(space, &other.attempts)?;
        let top = self.top.join(space, &other.top)?;
        let caller = join_callers(callers, space, &first, &second, self.below.len())?;
        self.attempts = attempts;
        self.top = top;
        self.caller = caller;
        Ok(())
    }

    /// Two groups of equal keys, of equally many locals in each two frames at one height, and of disjoint paths as one:
    /// at each configuration, what stands in the side that holds there. A caller that both have is kept.
    pub fn join(
        mut self,
        callers: &mut Callers<S>,
        space: &mut S,
        other: Group<S>,
    ) -> Result<Group<S>, SpaceFault>
        requires first { IsGroupIn (S.sets space.old) callers.old self }
        requires second { IsGroupIn (S.sets space.old) callers.old other }
        requires shapes { shapes_of callers.old self ≡ shapes_of callers.old other }
        requires disjoint { AreDisjoint (S.sets space.old) (path_of self) (path_of other) }
        ensures extends { Extends (S.sets space.old) (S.sets space.new) }
        ensures keeps { Keeps callers.old callers.new }
        ensures path { IfOk result (λ r. IsSet (S.sets space.new) (path_of r) (λ c. (S.sets space.old).test (path_of self) c || (S.sets space.old).test (path_of other) c)) }
        ensures shapes { IfOk result (λ r. shapes_of callers.new r ≡ shapes_of callers.old self) }
        ensures ok { IfOk result (IsGroupOf (S.sets space.new) callers.new (side_at (S.sets space.old) (path_of self) (group_at (S.sets space.old) callers.old self) (group_at (S.sets space.old) callers.old other))) }
        ensures shared { self.caller ≡ other.caller → (callers.new ≡ callers.old) × IfOk result (λ r. r.caller ≡ self.caller) }
    {
        self.take_in(callers, space, &other)?;
        Ok(self)
    }

    /// The number of the nearest caller, if there is one.
    pub(crate) fn caller(&self) -> Option<usize>
        ensures { result ≡ self.now.caller }
    {
        self.caller
    }

    /// How many frames are below the top.
    pub(crate) fn callers_count(&self) -> usize
        ensures { result ≡ length self.now.below }
    {
        self.below.len()
    }

    /// Appends just the ids that the group holds by itself: path and attempts, then the frame on top. Want of memory leaves the list as
    /// it was.
    #[tactic(auto, using(std::proofs::lemmas::List::append_assoc, std::proofs::lemmas::List::take_at))]
    pub fn ids_out(&self, ids: &mut Vec<S::Id>) -> Result<(), AllocError>
        ensures ok { OnOk result (ids.new.items ≡ ids.old.items ++ group_ids self.now) }
        ensures err { OnErr result (ids.new.items ≡ ids.old.items) }
    {
        let held = ids.len();
        self.attempts.ids_out(ids)?;
        or_cut_back(self.top.ids_out(ids), ids, held)
    }
}

impl<S: Space> Projects<S> for Group<S> {
    ghost use Rattle.vx_group.specs.Group.{PlainTop, top_at, group_ids};
    ghost use Rattle.vx_group.specs.Keeping.{top_at-kept};

    ghost Plain = { PlainTop };

    ghost ids = { group_ids };

    ghost plain = { top_at };

    ghost keeping = { top_at-kept };

    fn ids_out(&self, out: &mut Vec<S::Id>) -> Result<(), AllocError> {
        Group::ids_out(self, out)
    }
}
