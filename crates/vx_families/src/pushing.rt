//! Instructions that take no operand off.

ghost use Rattle.std.specs.Prelude.{◌≡◌, IfOk, Bool, List, true};
ghost use Rattle.vx_space.specs.Sets.{Extends};
ghost use Rattle.vx_cond.specs.Cond.{IsCond};
ghost use Rattle.vx_group.specs.Group.{IsGroup, path_of};
ghost use Rattle.vx_heap.specs.Heap.{HeapView};
ghost use Rattle.vx_group_states.specs.Answering.{AreHeld, answer_at, answered_by};
ghost use Rattle.vx_group_states.specs.Answers.{answer_cmp};
ghost use Rattle.vx_group_states.specs.Sites.{GivesAt, HasPast};
ghost use Rattle.vx_families.specs.Pushing.{is_push};

use std::alloc::Global;
use vx_cond::Cond;
use vx_group::Group;
use vx_group_states::{Answer, Site, carry_out, illegal};
use vx_outcome::Outcomes;
use vx_space::{Space, SpaceFault};

/// Does at each configuration of a group what the answer there says, with no operand taken off: each answer pushes a value
/// or ends the run. An operand takes a word at least, so where there are as many operands as the method's greatest stack has
/// words, no value fits any more (JVMS 2.6.2, 4.7.3).
pub fn push_answers<S: Space>(
    alloc: Global,
    site: &Site,
    space: &mut S,
    group: Group<S>,
    answers: &Cond<Answer, S>,
) -> Result<Outcomes<S>, SpaceFault>
    requires group { IsGroup (S.sets space.old) group }
    requires past { HasPast site.now group }
    requires answers { IsCond answer_cmp (S.sets space.old) answers.now }
    requires scope { answers.now.scope ≡ path_of group }
    requires pushes { (c : List Bool) → (S.sets space.old).test (path_of group) c ≡ true → is_push (answer_at (S.sets space.old) answers.now c) ≡ true }
    ensures extends { Extends (S.sets space.old) (S.sets space.new) }
    ensures gives { IfOk result (λ r. (heap : HeapView S S.Id) → AreHeld (S.sets space.old) heap (path_of group) answers.now → GivesAt site.now.program.now (answered_by site.now 0 (S.sets space.old) answers.now) (S.sets space.old) (S.sets space.new) group r.items.items heap) }
{
    if group.top_frame().stack.len() >= usize::from(site.code.max_stack) {
        return illegal(alloc, site.program, &group);
    }
    carry_out(alloc, site, space, group, 0, answers)
}
