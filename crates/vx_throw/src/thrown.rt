//! athrow (JVMS 6.5).

ghost use Rattle.std.specs.Prelude.{◌≡◌, IfOk};
ghost use Rattle.vx_families.specs.Attempts.{IsAttemptBy, IsGiven};
ghost use Rattle.vx_space.specs.Sets.{Extends};
ghost use Rattle.vx_throw.specs.Thrown.{thrown};

use std::alloc::Global;
use vx_families::top_operand;
use vx_group::Group;
use vx_group_states::{Answer, Site, carry_out, illegal};
use vx_heap::Heap;
use vx_java::{Operation, assignable, core_class};
use vx_link::Program;
use vx_outcome::Outcomes;
use vx_space::{Space, SpaceFault};
use vx_value::{ClassId, Slot};

/// What athrow makes of an operand: null raises an exception, and an object that is no Throwable breaks a rule.
fn thrown<S: Space>(
    program: &Program,
    heap: &Heap<S>,
    throwable: ClassId,
    null: ClassId,
    slot: Slot,
) -> Answer
    ensures { result ≡ thrown program.now heap.now throwable.0 null slot }
{
    if let Slot::Null = slot {
        return Answer::Raise(null, None);
    }
    match heap.class_at(slot) {
        Some(class) if assignable(program, class, throwable) => Answer::Throw(slot),
        _ => Answer::Illegal,
    }
}

/// One attempt of a group by athrow: the object on top is thrown, with all operands still there. The heap stays. After a refusal the group
/// is given up.
pub fn attempt<S: Space>(
    alloc: Global,
    site: &Site,
    space: &mut S,
    heap: &Heap<S>,
    group: Group<S>,
) -> Result<Outcomes<S>, SpaceFault>
    requires given { IsGiven site.now Operation.Throw (S.sets space.old) heap.now group }
    ensures extends { Extends (S.sets space.old) (S.sets space.new) }
    ensures ok { IfOk result (λ r. IsAttemptBy site.now Operation.Throw (S.sets space.old) (S.sets space.new) heap.now heap.now group r.items.items) }
{
    let program = site.program;
    if group.top_frame().stack.len() == 0 {
        return illegal(alloc, program, &group);
    }
    let throwable = core_class(program, b"java/lang/Throwable");
    let null = core_class(program, b"java/lang/NullPointerException");
    let answer = |slot: Slot| -> Answer
        ensures { result ≡ thrown program.entry.now heap.entry.now throwable.0 null slot }
    { thrown(program, heap, throwable, null, slot) };
    let answers = top_operand(&group).map(space, answer)?;
    carry_out(alloc, site, space, group, 1, &answers)
}
