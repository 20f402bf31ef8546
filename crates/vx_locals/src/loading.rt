//! Loads from local variables (JVMS 6.5 iload, lload, aload).

ghost use Rattle.std.specs.Prelude.{◌≡◌, IfOk};
ghost use Rattle.vx_space.specs.Sets.{Extends};
ghost use Rattle.vx_group.specs.Group.{IsGroup};
ghost use Rattle.vx_java.specs.Locals.{load as load_of};
ghost use Rattle.vx_group_states.specs.Sites.{Gives, HasPast, here};
ghost use Rattle.vx_locals.specs.Slots.{loaded};

use std::alloc::Global;
use vx_families::{push_answers, slot_is_of};
use vx_group::Group;
use vx_group_states::{Answer, Site, illegal};
use vx_java::Sort;
use vx_outcome::Outcomes;
use vx_space::{Space, SpaceFault};
use vx_value::Slot;

/// What a load answers where the local has this slot.
fn loaded(sort: Sort, slot: Slot) -> Answer
    ensures { result ≡ loaded sort slot }
{
    if slot_is_of(sort, slot) {
        Answer::Push(slot)
    } else {
        Answer::Illegal
    }
}

/// Pushes the value of a local where it is of the sort.
pub(crate) fn load<S: Space>(
    alloc: Global,
    site: &Site,
    space: &mut S,
    group: Group<S>,
    sort: Sort,
    place: u16,
) -> Result<Outcomes<S>, SpaceFault>
    requires group { IsGroup (S.sets space.old) group }
    requires past { HasPast site.now group }
    ensures extends { Extends (S.sets space.old) (S.sets space.new) }
    ensures gives { IfOk result (λ r. Gives site.now.program.now (λ s. load_of (here site.now s) sort place) (S.sets space.old) (S.sets space.new) group r.items.items) }
{
    let locals = &group.top_frame().locals;
    if locals.len() <= usize::from(place) {
        return illegal(alloc, site.program, &group);
    }
    let answer = |slot: Slot| -> Answer
        ensures { result ≡ loaded sort slot }
    { loaded(sort, slot) };
    let answers = locals.get(usize::from(place)).map(space, answer)?;
    push_answers(alloc, site, space, group, &answers)
}
