//! Calls of static methods: invokestatic (JVMS 6.5, 5.5).

ghost use Rattle.std.specs.Prelude.{◌≡◌, IfOk, ◌≤◌, length};
ghost use Rattle.vx_families.specs.Attempts.{AttemptsIn};
ghost use Rattle.vx_frames.specs.Giving.{GivesIn};
ghost use Rattle.vx_group.specs.Callers.{Keeps};
ghost use Rattle.vx_group.specs.Group.{IsGroupIn};
ghost use Rattle.vx_group_states.specs.Sites.{here};
ghost use Rattle.vx_heap.specs.Heap.{HeapView};
ghost use Rattle.vx_java.specs.Calls.{call_static};
ghost use Rattle.vx_java.specs.Ids.{HasClassNumbers};
ghost use Rattle.vx_java.specs.Selection.{selected_if_concrete};
ghost use Rattle.vx_link.specs.Names.{Member};
ghost use Rattle.vx_link.specs.Parts.{method_at};
ghost use Rattle.vx_link.specs.Signature.{signature};
ghost use Rattle.vx_ready.specs.Initialising.{proceeding};
ghost use Rattle.vx_space.specs.Sets.{Extends, IsKnown};
ghost use Rattle.vx_invoke.specs.Calling.{IsCallingStatic, MayEnterInside};
ghost use Rattle.vx_invoke.specs.Called.{by_selected, called_with};

use crate::arguments::where_matching;
use crate::call::{Call, by_selected};
use crate::entering::called_part;
use std::alloc::Global;
use vx_desc::JavaType;
use vx_group::{Callers, Group};
use vx_group_states::{Site, illegal};
use vx_heap::Heap;
use vx_java::parts::class_of_method;
use vx_java::selected_if_concrete;
use vx_outcome::Outcomes;
use vx_ready::{Readiness, make_ready, stop_others};
use vx_space::{Space, SpaceFault};
use vx_value::MethodId;

/// The runs that proceed call the method, and the others stop. No runs come to no outcome.
fn call_ready<S: Space>(
    alloc: Global,
    site: &Site,
    space: &mut S,
    callers: &mut Callers<S>,
    group: Group<S>,
    method: MethodId,
    needs: S::Id,
    readiness: &Readiness<S>,
    count: usize,
) -> Result<Outcomes<S>, SpaceFault>
    requires classes { HasClassNumbers site.now.program.now }
    requires group { IsGroupIn (S.sets space.old) callers.old group }
    requires enough { count ≤ length group.top.stack.conds }
    requires needs { IsKnown (S.sets space.old) needs }
    requires proceeds { IsKnown (S.sets space.old) readiness.now.proceeds }
    requires fails { IsKnown (S.sets space.old) readiness.now.fails }
    requires enter { MayEnterInside site.now.program.now (S.sets space.old) group readiness.now.proceeds count method.0 }
    ensures extends { Extends (S.sets space.old) (S.sets space.new) }
    ensures keeps { Keeps callers.old callers.new }
    ensures gives { IfOk result (λ r. (heap : HeapView S S.Id) → GivesIn site.now.program.now (proceeding site.now (method_at site.now.program.now method.0).class.0 (S.sets space.old) needs readiness.now (called_with site.now count (by_selected site.now.program.now (selected_if_concrete site.now.program.now method.0)))) (S.sets space.old) (S.sets space.new) callers.old callers.new group r.items.items heap) }
{
    let class = class_of_method(site.program, method);
    let (calling, mut outcomes) = stop_others(alloc, site, space, group, class, needs, readiness)?;
    if space.is_never(calling.path()) {
        return Ok(outcomes);
    }
    let call = by_selected(site.program, selected_if_concrete(site.program, method));
    let made = called_part(alloc, site, space, callers, calling, call, count)?;
    outcomes.append(made)?;
    Ok(outcomes)
}

/// All runs call a static method, with arguments of these types. Its class is made ready where the arguments fit.
pub(crate) fn static_call<S: Space>(
    alloc: Global,
    site: &Site,
    space: &mut S,
    heap: &mut Heap<S>,
    callers: &mut Callers<S>,
    group: Group<S>,
    method: MethodId,
    types: &[JavaType],
) -> Result<Outcomes<S>, SpaceFault>
    requires { IsCallingStatic site.now (S.sets space.old) heap.old callers.old group method types.now }
    ensures extends { Extends (S.sets space.old) (S.sets space.new) }
    ensures ok { IfOk result (λ r. (m : Member) → (signature m.descriptor).arguments ≡ types.now → AttemptsIn site.now (λ s. call_static (here site.now s) m method.0) (S.sets space.old) (S.sets space.new) heap.old heap.new callers.old callers.new group r.items.items) }
{
    let count = types.len();
    if group.top_frame().stack.len() < count {
        return illegal(alloc, site.program, &group);
    }
    let class = class_of_method(site.program, method);
    let needs = where_matching(space, &group, types)?;
    let readiness = make_ready(alloc, site.program, space, heap, class, needs)?;
    call_ready(
        alloc, site, space, callers, group, method, needs, &readiness, count,
    )
}
