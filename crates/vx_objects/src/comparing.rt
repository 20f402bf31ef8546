//! References compared, and monitors (JVMS 6.5 if_acmpeq, if_acmpne, monitorenter, monitorexit).

ghost use Rattle.std.specs.Prelude.{◌≡◌, IfOk};
ghost use Rattle.vx_families.specs.Attempts.{IsAttemptBy, IsGiven};
ghost use Rattle.vx_objects.specs.Answers.{compared, is_reference, monitored, same_slots};
ghost use Rattle.vx_space.specs.Sets.{Extends};

use std::alloc::Global;
use vx_arith::{Spot, branch_by, spot_at};
use vx_families::{second_operand, top_operand};
use vx_group::Group;
use vx_group_states::{Answer, Site, carry_out, illegal};
use vx_heap::Heap;
use vx_java::{Operation, core_class};
use vx_outcome::Outcomes;
use vx_space::{Space, SpaceFault};
use vx_value::{ClassId, Slot};

fn is_reference(slot: Slot) -> bool
    ensures { result ≡ is_reference slot }
{
    matches!(slot, Slot::Null | Slot::Ref(_))
}

/// Whether two references are one. References to objects that are there are one exactly where their numbers are equal.
pub fn same_slots(a: Slot, b: Slot) -> bool
    ensures { result ≡ same_slots a b }
{
    match (a, b) {
        (Slot::Null, Slot::Null) => true,
        (Slot::Ref(a), Slot::Ref(b)) => a == b,
        _ => false,
    }
}

fn compared(spot: &Spot, wanted: bool, offset: i32, upper: Slot, lower: Slot) -> Answer
    ensures { result ≡ compared spot.now wanted offset upper lower }
{
    if !is_reference(upper) || !is_reference(lower) {
        return Answer::Illegal;
    }
    branch_by(spot, same_slots(lower, upper) == wanted, offset)
}

/// if_acmpeq and if_acmpne.
pub(crate) fn if_same<S: Space>(
    alloc: Global,
    site: &Site,
    space: &mut S,
    heap: &Heap<S>,
    wanted: bool,
    offset: i32,
    group: Group<S>,
) -> Result<Outcomes<S>, SpaceFault>
    requires { IsGiven site.now (Operation.IfSame wanted offset) (S.sets space.old) heap.now group }
    ensures extends { Extends (S.sets space.old) (S.sets space.new) }
    ensures ok { IfOk result (λ r. IsAttemptBy site.now (Operation.IfSame wanted offset) (S.sets space.old) (S.sets space.new) heap.now heap.now group r.items.items) }
{
    if group.top_frame().stack.len() < 2 {
        return illegal(alloc, site.program, &group);
    }
    let spot = spot_at(site, group.top_frame().position);
    let answer = |upper: Slot, lower: Slot| -> Answer
        ensures { result ≡ compared spot.entry wanted offset upper lower }
    { compared(&spot, wanted, offset, upper, lower) };
    let answers = top_operand(&group).zip(space, second_operand(&group), answer)?;
    carry_out(alloc, site, space, group, 2, &answers)
}

fn monitored(null: ClassId, slot: Slot) -> Answer
    ensures { result ≡ monitored null slot }
{
    match slot {
        Slot::Null => Answer::Raise(null, None),
        Slot::Ref(_) => Answer::Pass,
        _ => Answer::Illegal,
    }
}

/// monitorenter and monitorexit: there is one thread, so the object is popped and nothing else happens.
pub(crate) fn monitor<S: Space>(
    alloc: Global,
    site: &Site,
    space: &mut S,
    heap: &Heap<S>,
    group: Group<S>,
) -> Result<Outcomes<S>, SpaceFault>
    requires { IsGiven site.now Operation.Monitor (S.sets space.old) heap.now group }
    ensures extends { Extends (S.sets space.old) (S.sets space.new) }
    ensures ok { IfOk result (λ r. IsAttemptBy site.now Operation.Monitor (S.sets space.old) (S.sets space.new) heap.now heap.now group r.items.items) }
{
    if group.top_frame().stack.len() == 0 {
        return illegal(alloc, site.program, &group);
    }
    let null = core_class(site.program, b"java/lang/NullPointerException");
    let answer = |slot: Slot| -> Answer
        ensures { result ≡ monitored null slot }
    { monitored(null, slot) };
    let answers = top_operand(&group).map(space, answer)?;
    carry_out(alloc, site, space, group, 1, &answers)
}
