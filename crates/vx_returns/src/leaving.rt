//! Frames that are left by a return.

ghost use Rattle.std.specs.Prelude.{◌≡◌, ◌≢◌, ◌<◌, Bool, IfOk, length, true};
ghost use Rattle.vx_families.specs.Bounds.{IsBounded};
ghost use Rattle.vx_frames.specs.Giving.{GivesIn};
ghost use Rattle.vx_group.specs.Group.{IsGroupIn, depth_of};
ghost use Rattle.vx_group_states.specs.Sites.{Gives};
ghost use Rattle.vx_group_states.specs.declared.site.Site.{Site};
ghost use Rattle.vx_heap.specs.Heap.{HeapView};
ghost use Rattle.vx_java.specs.Machine.{Ended as EndedOf};
ghost use Rattle.vx_space.specs.Sets.{Extends, Sets};
ghost use Rattle.vx_value.specs.declared.end.End.TheVariants.{Return as ReturnEnd};
ghost use Rattle.vx_value.specs.declared.key.Kind.TheVariants.{Call};
ghost use Rattle.vx_returns.specs.Handing.{left_by};

use crate::receiving::{ReturnSite, moved_past, receive};
use std::alloc::{AllocError, Global};
use vx_frames::{uncovered, woken};
use vx_group::{Callers, Group};
use vx_group_states::Site;
use vx_outcome::{Outcome, Outcomes};
use vx_space::{Space, SpaceFault};
use vx_value::{End, Kind};

/// All runs of a group end with the return of their first frame.
fn all_end<S: Space>(alloc: Global, group: &Group<S>) -> Result<Outcomes<S>, AllocError>
    ensures { IfOk result (λ r. (program : _) (sets : Sets S.Id) → Gives program (λ _. EndedOf ReturnEnd) sets sets group.now r.items.items) }
{
    let mut outcomes = Outcomes::new(alloc);
    outcomes.push(Outcome::Ended {
        condition: group.path(),
        end: End::Return,
    })?;
    Ok(outcomes)
}

/// The frame of a call is left: its caller moves past the call and gets the operand on top, where one is handed back and fits.
fn to_caller<S: Space>(
    alloc: Global,
    site: &Site,
    space: &mut S,
    callers: &mut Callers<S>,
    group: Group<S>,
    returns: bool,
) -> Result<Outcomes<S>, SpaceFault>
    requires bounded { IsBounded site.now.program.now }
    requires group { IsGroupIn (S.sets space.old) callers.old group }
    requires kind { group.top.kind ≡ Call }
    requires called { 1 < depth_of group }
    requires value { returns ≡ true → 0 < length group.top.stack.conds }
    ensures extends { Extends (S.sets space.old) (S.sets space.new) }
    ensures callers { callers.new ≡ callers.old }
    ensures gives { IfOk result (λ r. (heap : HeapView S S.Id) → GivesIn site.now.program.now (λ _ _. left_by site.now returns) (S.sets space.old) (S.sets space.new) callers.old callers.new group r.items.items heap) }
{
    let (caller, mut frame) = uncovered(space, callers, group)?;
    let resumed = moved_past(site.program, caller);
    if !returns {
        let outcomes = Outcomes::go(alloc, resumed)?;
        return Ok(outcomes);
    }
    let Some(value) = frame.stack.pop() else {
        unreachable!()
    };
    let at = ReturnSite {
        method: frame.method,
        position: frame.position,
    };
    receive(alloc, site.program, space, resumed, value, at)
}

/// The frame of an initialisation is left: the frame below stays where it stands, and is the next to initialise if it waits.
fn to_waiting<S: Space>(
    alloc: Global,
    space: &mut S,
    callers: &mut Callers<S>,
    group: Group<S>,
) -> Result<Outcomes<S>, SpaceFault>
    requires group { IsGroupIn (S.sets space.old) callers.old group }
    requires kind { group.top.kind ≢ Call }
    requires called { 1 < depth_of group }
    ensures extends { Extends (S.sets space.old) (S.sets space.new) }
    ensures callers { callers.new ≡ callers.old }
    ensures gives { IfOk result (λ r. (site : Site) (returns : Bool) (heap : HeapView S S.Id) → GivesIn site.program.now (λ _ _. left_by site returns) (S.sets space.old) (S.sets space.new) callers.old callers.new group r.items.items heap) }
{
    let (below, _frame) = uncovered(space, callers, group)?;
    let awake = woken(space, below);
    let outcomes = Outcomes::go(alloc, awake)?;
    Ok(outcomes)
}

/// The frame on top is left (JVMS 2.6.4, 5.5). The run ends with its first frame. No runs come to no outcome.
pub(crate) fn leave<S: Space>(
    alloc: Global,
    site: &Site,
    space: &mut S,
    callers: &mut Callers<S>,
    group: Group<S>,
    returns: bool,
) -> Result<Outcomes<S>, SpaceFault>
    requires bounded { IsBounded site.now.program.now }
    requires group { IsGroupIn (S.sets space.old) callers.old group }
    requires value { returns ≡ true → 0 < length group.top.stack.conds }
    ensures extends { Extends (S.sets space.old) (S.sets space.new) }
    ensures callers { callers.new ≡ callers.old }
    ensures gives { IfOk result (λ r. (heap : HeapView S S.Id) → GivesIn site.now.program.now (λ _ _. left_by site.now returns) (S.sets space.old) (S.sets space.new) callers.old callers.new group r.items.items heap) }
{
    if space.is_never(group.path()) {
        return Ok(Outcomes::new(alloc));
    }
    if group.depth() == 1 {
        let ended = all_end(alloc, &group)?;
        return Ok(ended);
    }
    match group.top_frame().kind {
        Kind::Call => to_caller(alloc, site, space, callers, group, returns),
        Kind::Wait | Kind::Init => to_waiting(alloc, space, callers, group),
    }
}
