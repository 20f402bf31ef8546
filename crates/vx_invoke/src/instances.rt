//! Calls of methods on objects: invokevirtual, invokespecial, invokeinterface (JVMS 6.5).

ghost use Rattle.std.specs.Prelude.{◌≡◌, ◌<◌, ◌-◌, Bool, IfOk, List, Some, length, slice_get, suc, true};
ghost use Rattle.vx_cond.specs.Cond.{IsCond, IsInside, cond_at};
ghost use Rattle.vx_cond.specs.Leaves.{AreLeaves, value_at};
ghost use Rattle.vx_frames.specs.Giving.{GivesIn};
ghost use Rattle.vx_group.specs.Callers.{Keeps};
ghost use Rattle.vx_group.specs.Group.{IsGroup, IsGroupIn, path_of};
ghost use Rattle.vx_group_states.specs.Sites.{Cover, here};
ghost use Rattle.vx_heap.specs.Heap.{HeapView};
ghost use Rattle.vx_java.specs.Calls.{call_instance};
ghost use Rattle.vx_java.specs.Ids.{HasClassNumbers};
ghost use Rattle.vx_link.specs.Names.{Member};
ghost use Rattle.vx_space.specs.Sets.{Extends, IsKnown};
ghost use Rattle.vx_invoke.specs.Calling.{IsCalling, IsMemberOf, MatchCalls, MayEnterEach, operand_at, where_called};
ghost use Rattle.vx_invoke.specs.Called.{call_of, call_or_illegal, called_with};
ghost use Rattle.vx_invoke.specs.Calls.{call_cmp};

use crate::arguments::where_matching;
use crate::call::{Call, call_of};
use crate::entering::called_part;
use crate::target::Target;
use std::alloc::Global;
use vx_cond::{Cond, Leaf};
use vx_desc::JavaType;
use vx_group::{Callers, Group};
use vx_group_states::{Site, illegal};
use vx_heap::Heap;
use vx_outcome::Outcomes;
use vx_ready::ended_part;
use vx_space::{Space, SpaceFault};
use vx_value::Slot;

/// The operand under so many others.
fn operand_under<S: Space>(group: &Group<S>, above: usize) -> &Cond<Slot, S>
    requires { above < length group.now.top.stack.conds }
    ensures { Some result.now ≡ slice_get group.now.top.stack.conds (length group.now.top.stack.conds - suc above) }
{
    let stack = &group.top_frame().stack;
    stack.get(stack.len() - above - 1)
}

/// What the call comes to at each configuration of a set, by the operand under so many arguments.
fn calls_inside<S: Space>(
    site: &Site,
    space: &mut S,
    heap: &Heap<S>,
    group: &Group<S>,
    target: &Target,
    arguments: usize,
    set: S::Id,
) -> Result<Cond<Call, S>, SpaceFault>
    requires classes { HasClassNumbers site.now.program.now }
    requires group { IsGroup (S.sets space.old) group.now }
    requires enough { arguments < length group.now.top.stack.conds }
    requires known { IsKnown (S.sets space.old) set }
    requires inside { IsInside (S.sets space.old) set (path_of group.now) }
    ensures extends { Extends (S.sets space.old) (S.sets space.new) }
    ensures cond { IfOk result (IsCond call_cmp (S.sets space.new)) }
    ensures scope { IfOk result (λ r. r.scope ≡ set) }
    ensures at { IfOk result (λ r. (c : List Bool) → (S.sets space.old).test set c ≡ true → cond_at (S.sets space.new) r c ≡ Some (call_of site.now.program.now heap.now target.now (operand_at (S.sets space.old) group.now arguments c))) }
{
    let program = site.program;
    let receivers = operand_under(group, arguments).restrict(space, set)?;
    let call = |receiver: Slot| -> Call
        requires { HasClassNumbers program.now }
        ensures { result ≡ call_of program.entry.now heap.entry.now target.entry.now receiver }
    { call_of(program, heap, target, receiver) };
    let calls = receivers.map(space, call)?;
    Ok(calls)
}

/// The parts of a group by what the call comes to: receivers that select one method stay together, whatever their objects.
fn called_parts<S: Space>(
    alloc: Global,
    site: &Site,
    space: &mut S,
    callers: &mut Callers<S>,
    group: Group<S>,
    calls: &[Leaf<Call, S>],
    count: usize,
) -> Result<Outcomes<S>, SpaceFault>
    requires classes { HasClassNumbers site.now.program.now }
    requires group { IsGroupIn (S.sets space.old) callers.old group }
    requires leaves { AreLeaves call_cmp (S.sets space.old) calls.now }
    requires cover { Cover (S.sets space.old) (path_of group) calls.now }
    requires enter { MayEnterEach site.now.program.now (S.sets space.old) group count calls.now }
    ensures extends { Extends (S.sets space.old) (S.sets space.new) }
    ensures keeps { Keeps callers.old callers.new }
    ensures gives { IfOk result (λ r. (heap : HeapView S S.Id) → GivesIn site.now.program.now (λ _ c. called_with site.now count (call_or_illegal (value_at (S.sets space.old) calls.now c))) (S.sets space.old) (S.sets space.new) callers.old callers.new group r.items.items heap) }
{
    let mut outcomes = Outcomes::new(alloc);
    let mut rest = group;
    for leaf in calls {
        let (part, others) = rest.split(space, leaf.condition)?;
        let made = called_part(alloc, site, space, callers, part, leaf.value, count)?;
        outcomes.append(made)?;
        rest = others;
    }
    Ok(outcomes)
}

/// The parts of a group in a set of its configurations, where the arguments fit, and its end elsewhere.
fn matching_parts<S: Space>(
    alloc: Global,
    site: &Site,
    space: &mut S,
    callers: &mut Callers<S>,
    group: Group<S>,
    calls: &Cond<Call, S>,
    count: usize,
) -> Result<Outcomes<S>, SpaceFault>
    requires classes { HasClassNumbers site.now.program.now }
    requires group { IsGroupIn (S.sets space.old) callers.old group }
    requires calls { IsCond call_cmp (S.sets space.old) calls.now }
    requires enter { MatchCalls site.now.program.now (S.sets space.old) group count calls.now }
    ensures extends { Extends (S.sets space.old) (S.sets space.new) }
    ensures keeps { Keeps callers.old callers.new }
    ensures gives { IfOk result (λ r. (heap : HeapView S S.Id) → GivesIn site.now.program.now (λ _ c. where_called site.now count (cond_at (S.sets space.old) calls.now c)) (S.sets space.old) (S.sets space.new) callers.old callers.new group r.items.items heap) }
{
    let (calling, breaking) = group.split(space, calls.scope())?;
    let ended = ended_part(alloc, site, space, breaking)?;
    let mut outcomes = called_parts(alloc, site, space, callers, calling, calls.leaves(), count)?;
    outcomes.append(ended)?;
    Ok(outcomes)
}

/// All runs call a method on an object, with arguments of these types: the receiver is under them.
pub(crate) fn instance_call<S: Space>(
    alloc: Global,
    site: &Site,
    space: &mut S,
    heap: &Heap<S>,
    callers: &mut Callers<S>,
    group: Group<S>,
    target: &Target,
    types: &[JavaType],
) -> Result<Outcomes<S>, SpaceFault>
    requires { IsCalling site.now (S.sets space.old) heap.now callers.old group target.now types.now }
    ensures extends { Extends (S.sets space.old) (S.sets space.new) }
    ensures keeps { Keeps callers.old callers.new }
    ensures gives { IfOk result (λ r. (m : Member) → IsMemberOf site.now.program.now group target.now m → GivesIn site.now.program.now (λ _ _ s. call_instance (here site.now s) target.now.mode m target.now.named.0 target.now.resolved.0) (S.sets space.old) (S.sets space.new) callers.old callers.new group r.items.items heap.now) }
{
    let count = types.len() + 1;
    if group.top_frame().stack.len() < count {
        return illegal(alloc, site.program, &group);
    }
    let matching = where_matching(space, &group, types)?;
    let calls = calls_inside(site, space, heap, &group, target, types.len(), matching)?;
    matching_parts(alloc, site, space, callers, group, &calls, count)
}
