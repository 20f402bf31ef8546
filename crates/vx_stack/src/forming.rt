//! Stack forms for all configurations of a group at once.

ghost use Rattle.std.specs.Prelude.{◌≡◌, ◌+◌, ◌<◌, ◌≤◌, ◌^◌, IfOk, IfSome, Some, length, true};
ghost use Rattle.vx_space.specs.Sets.{Extends};
ghost use Rattle.vx_cond.specs.Leaves.{AreLeaves};
ghost use Rattle.vx_group.specs.Group.{IsGroup, path_of};
ghost use Rattle.vx_heap.specs.Heap.{HeapView};
ghost use Rattle.vx_group_states.specs.Sites.{Cover, Gives, GivesAt, HasPast};
ghost use Rattle.vx_families.specs.Attempts.{IsAttemptBy, IsGiven};
ghost use Rattle.vx_stack.specs.Cuts.{counts_of};
ghost use Rattle.vx_stack.specs.Exact.{cut_cmp};
ghost use Rattle.vx_stack.specs.Forms.{ArePossible, formed_as, formed_by, formed_where, is_form, order_of as order_by};

use crate::cut::{Cut, counts};
use crate::cutting::cuts;
use crate::order::{Order, order_of};
use crate::reordering::with_form;
use std::alloc::Global;
use vx_cond::Leaf;
use vx_group::Group;
use vx_group_states::{Site, illegal, part_in, settle};
use vx_heap::Heap;
use vx_java::Operation;
use vx_outcome::Outcomes;
use vx_space::{Space, SpaceFault};

/// No form takes off more operands (JVMS 6.5 dup2_x2).
const MOST_TAKEN: usize = 4;

/// The part of a group in which so many values stand in the upper words, and in those under them.
fn counted_part<S: Space>(
    alloc: Global,
    site: &Site,
    space: &mut S,
    part: Group<S>,
    order: Order,
    upper: usize,
    lower: usize,
) -> Result<Outcomes<S>, SpaceFault>
    requires group { IsGroup (S.sets space.old) part }
    requires past { HasPast site.now part }
    requires enough { upper + lower ≤ length part.top.stack.conds }
    requires few { length part.top.stack.conds + upper < 2 ^ 32 }
    ensures extends { Extends (S.sets space.old) (S.sets space.new) }
    ensures gives { IfOk result (λ r. Gives site.now.program.now (formed_by site.now order upper lower) (S.sets space.old) (S.sets space.new) part r.items.items) }
{
    let group = with_form(alloc, space, part, order, upper, lower)?;
    settle(alloc, site, space, group)
}

/// The part of a group in which the operands are cut in this way. A form takes off fewer than five operands, and each takes
/// a word at least: where there are more than the method's greatest stack has words and four, the others don't fit.
fn cut_part<S: Space>(
    alloc: Global,
    site: &Site,
    space: &mut S,
    part: Group<S>,
    order: Order,
    cut: Cut,
) -> Result<Outcomes<S>, SpaceFault>
    requires group { IsGroup (S.sets space.old) part }
    requires past { HasPast site.now part }
    requires enough { IfSome (counts_of cut) (λ n. n.0 + n.1 ≤ length part.top.stack.conds) }
    ensures extends { Extends (S.sets space.old) (S.sets space.new) }
    ensures gives { IfOk result (λ r. Gives site.now.program.now (formed_as site.now order (counts_of cut)) (S.sets space.old) (S.sets space.new) part r.items.items) }
{
    let Some((upper, lower)) = counts(cut) else {
        return illegal(alloc, site.program, &part);
    };
    if part.top_frame().stack.len() > usize::from(site.code.max_stack) + MOST_TAKEN {
        return illegal(alloc, site.program, &part);
    }
    counted_part(alloc, site, space, part, order, upper, lower)
}

/// The parts of a group by where the operands are cut.
fn cut_parts<S: Space>(
    alloc: Global,
    site: &Site,
    space: &mut S,
    group: Group<S>,
    order: Order,
    cuts: &[Leaf<Cut, S>],
) -> Result<Outcomes<S>, SpaceFault>
    requires group { IsGroup (S.sets space.old) group }
    requires past { HasPast site.now group }
    requires cuts { AreLeaves cut_cmp (S.sets space.old) cuts.now }
    requires cover { Cover (S.sets space.old) (path_of group) cuts.now }
    requires possible { ArePossible (S.sets space.old) (length group.top.stack.conds) cuts.now }
    ensures extends { Extends (S.sets space.old) (S.sets space.new) }
    ensures gives { IfOk result (λ r. (heap : HeapView S S.Id) → GivesAt site.now.program.now (λ _. formed_where site.now order (S.sets space.old) cuts.now) (S.sets space.old) (S.sets space.new) group r.items.items heap) }
{
    let mut outcomes = Outcomes::new(alloc);
    let mut rest = group;
    for leaf in cuts {
        let (part, left) = part_in(space, rest, leaf.condition)?;
        let made = cut_part(alloc, site, space, part, order, leaf.value)?;
        outcomes.append(made)?;
        let Some(others) = left else {
            return Ok(outcomes);
        };
        rest = others;
    }
    Ok(outcomes)
}

/// One attempt of a group by a stack form (JVMS 6.5 pop, pop2, dup, dup_x1, dup_x2, dup2, dup2_x1, dup2_x2, swap). The heap
/// stays. After a refusal the group is given up.
pub fn attempt<S: Space>(
    alloc: Global,
    site: &Site,
    space: &mut S,
    heap: &Heap<S>,
    operation: Operation,
    group: Group<S>,
) -> Result<Outcomes<S>, SpaceFault>
    requires given { IsGiven site.now operation (S.sets space.old) heap.now group }
    requires family { is_form operation ≡ true }
    ensures extends { Extends (S.sets space.old) (S.sets space.new) }
    ensures ok { IfOk result (λ r. IsAttemptBy site.now operation (S.sets space.old) (S.sets space.new) heap.now heap.now group r.items.items) }
{
    let Operation::Stack(form) = operation else {
        unreachable!()
    };
    let found = cuts(alloc, space, &group.top_frame().stack, form)?;
    cut_parts(alloc, site, space, group, order_of(form), found.leaves())
}
