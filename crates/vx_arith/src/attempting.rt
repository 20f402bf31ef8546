//! The attempts of the family.

ghost use Rattle.std.specs.Prelude.{◌≡◌, ◌+◌, ◌<◌, IfOk, true};
ghost use Rattle.vx_arith.specs.Family.{is_goto, is_of_numbers, takes_none, takes_two};
ghost use Rattle.vx_arith.specs.Raising.{IsByZero};
ghost use Rattle.vx_families.specs.Attempts.{IsAttemptBy, IsGiven, row_by};
ghost use Rattle.vx_group.specs.Group.{IsGroup};
ghost use Rattle.vx_java.specs.Ids.{HasClassNumbers};
ghost use Rattle.vx_space.specs.Sets.{Extends};
ghost use Rattle.vx_group_states.specs.Sites.{Gives};
ghost use Rattle.vx_value.specs.Texts.{Extends as TextsExtend};

use crate::family::{divides, takes_one, takes_two};
use crate::jumping::goto_target;
use crate::operands::{on_top, on_top_two};
use crate::spot::spot_at;
use std::alloc::{AllocError, Global};
use vx_families::unsupported;
use vx_group::Group;
use vx_group_states::{Answer, Site};
use vx_heap::Heap;
use vx_java::{Operation, core_class};
use vx_link::Program;
use vx_outcome::Outcomes;
use vx_space::{Space, SpaceFault};
use vx_value::Name;

/// The class of what a zero divisor raises.
const ARITHMETIC: &[u8] = b"java/lang/ArithmeticException";

/// Its message, `/ by zero`.
const BY_ZERO: &[u16] = &[47, 32, 98, 121, 32, 122, 101, 114, 111];

/// What an instruction that is left out names.
const NOTHING: &[u8] = b"-";

/// What a zero divisor comes to. The text of the message is in the heap then.
fn division_by_zero<S: Space>(program: &Program, heap: &mut Heap<S>) -> Result<Answer, AllocError>
    requires { HasClassNumbers program.now }
    ensures raises { IfOk result (IsByZero program.now heap.new) }
    ensures same { IfOk result (λ _. heap.new ≡ record heap.old { texts = heap.new.texts }) }
    ensures earlier { IfOk result (λ _. TextsExtend heap.old.texts heap.new.texts) }
{
    let message = heap.put_text(BY_ZERO)?;
    Ok(Answer::Raise(core_class(program, ARITHMETIC), Some(message)))
}

/// Goes to the one position of a jump that takes no operand, at each configuration of a group.
fn goto<S: Space>(
    alloc: Global,
    site: &Site,
    space: &S,
    operation: Operation,
    group: Group<S>,
) -> Result<Outcomes<S>, AllocError>
    requires goto { is_goto operation ≡ true }
    requires group { IsGroup (S.sets space.now) group }
    requires short { group.top.position + site.now.size < 65536 }
    ensures { IfOk result (λ r. Gives site.now.program.now (row_by site.now operation) (S.sets space.now) (S.sets space.now) group r.items.items) }
{
    let (below, mut frame) = group.take_top();
    let spot = spot_at(site, frame.position);
    frame.position = goto_target(&spot, operation);
    Outcomes::go(alloc, below.put_top(frame))
}

/// An instruction that takes no operand.
fn with_none<S: Space>(
    alloc: Global,
    site: &Site,
    space: &S,
    operation: Operation,
    group: Group<S>,
) -> Result<Outcomes<S>, SpaceFault>
    requires none { takes_none operation ≡ true }
    requires group { IsGroup (S.sets space.now) group }
    requires short { group.top.position + site.now.size < 65536 }
    ensures { IfOk result (λ r. Gives site.now.program.now (row_by site.now operation) (S.sets space.now) (S.sets space.now) group r.items.items) }
{
    match operation {
        Operation::Goto(_) => {
            let went = goto(alloc, site, space, operation, group)?;
            Ok(went)
        }
        Operation::Refuse(word) => {
            let what = Name::of(alloc, NOTHING)?;
            unsupported(alloc, site.program, &group, word, what)
        }
        _ => unreachable!(),
    }
}

/// An instruction that takes two operands.
fn with_two<S: Space>(
    alloc: Global,
    site: &Site,
    space: &mut S,
    heap: &mut Heap<S>,
    operation: Operation,
    group: Group<S>,
) -> Result<Outcomes<S>, SpaceFault>
    requires two { takes_two operation ≡ true }
    requires given { IsGiven site.now operation (S.sets space.old) heap.old group }
    ensures extends { Extends (S.sets space.old) (S.sets space.new) }
    ensures ok { IfOk result (λ r. IsAttemptBy site.now operation (S.sets space.old) (S.sets space.new) heap.old heap.new group r.items.items) }
{
    if divides(operation) {
        let by_zero = division_by_zero(site.program, heap)?;
        return on_top_two(alloc, site, space, by_zero, operation, group);
    }
    on_top_two(alloc, site, space, Answer::Illegal, operation, group)
}

/// One attempt of a group by an instruction of numbers, a jump or an instruction that is left out (JVMS 6.5). The only
/// refusal is want of memory; the group is given up then, and the heap is not to be used any more.
pub fn attempt<S: Space>(
    alloc: Global,
    site: &Site,
    space: &mut S,
    heap: &mut Heap<S>,
    operation: Operation,
    group: Group<S>,
) -> Result<Outcomes<S>, SpaceFault>
    requires given { IsGiven site.now operation (S.sets space.old) heap.old group }
    requires family { is_of_numbers operation ≡ true }
    ensures extends { Extends (S.sets space.old) (S.sets space.new) }
    ensures ok { IfOk result (λ r. IsAttemptBy site.now operation (S.sets space.old) (S.sets space.new) heap.old heap.new group r.items.items) }
{
    if takes_two(operation) {
        return with_two(alloc, site, space, heap, operation, group);
    }
    if takes_one(operation) {
        return on_top(alloc, site, space, operation, group);
    }
    with_none(alloc, site, space, operation, group)
}
