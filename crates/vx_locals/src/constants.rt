//! Constants that instructions push (JVMS 6.5 aconst_null, iconst, lconst, bipush, sipush).

ghost use Rattle.std.specs.Prelude.{◌≡◌, IfOk, List, Bool, true};
ghost use Rattle.vx_space.specs.Sets.{Extends};
ghost use Rattle.vx_group.specs.Group.{IsGroup, path_of};
ghost use Rattle.vx_heap.specs.Heap.{HeapView, is_held, value_of};
ghost use Rattle.vx_java.specs.Machine.{push};
ghost use Rattle.vx_group_states.specs.Sites.{GivesAt, HasPast, here};

use std::alloc::Global;
use vx_cond::Cond;
use vx_families::push_answers;
use vx_group::Group;
use vx_group_states::{Answer, Site};
use vx_outcome::Outcomes;
use vx_space::{Space, SpaceFault};
use vx_value::Slot;

/// Pushes a value.
pub(crate) fn push_constant<S: Space>(
    alloc: Global,
    site: &Site,
    space: &mut S,
    group: Group<S>,
    value: Slot,
) -> Result<Outcomes<S>, SpaceFault>
    requires group { IsGroup (S.sets space.old) group }
    requires past { HasPast site.now group }
    ensures extends { Extends (S.sets space.old) (S.sets space.new) }
    ensures gives { IfOk result (λ r. (heap : HeapView S S.Id) → ((c : List Bool) → (S.sets space.old).test (path_of group) c ≡ true → is_held (S.sets space.old) heap c value ≡ true) → GivesAt site.now.program.now (λ heap c s. push (here site.now s) (value_of (S.sets space.old) heap c value) s.top.operands) (S.sets space.old) (S.sets space.new) group r.items.items heap) }
{
    let answers = Cond::one(alloc, space, Answer::Push(value), group.path())?;
    push_answers(alloc, site, space, group, &answers)
}
