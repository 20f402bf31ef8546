//! Exceptions that an attempt raises or throws, thrown in the same attempt (JVMS 2.10).

ghost use Rattle.std.specs.Prelude.{◌≡◌, ◌≢◌, ◌∷◌, [], IfOk, true};
ghost use Rattle.std.specs.List.{list_all};
ghost use Rattle.vx_space.specs.Sets.{Extends};
ghost use Rattle.vx_outcome.specs.Outcome.{condition_of};
ghost use Rattle.vx_standing.specs.Attempted.{is_placed, thrown_out};
ghost use Rattle.vx_attempt.specs.Carrying.{AreCarriedOut, MayThrow, NoneUncarried};

use crate::natives::{are_done, only};
use std::alloc::Global;
use vx_group::Callers;
use vx_heap::Heap;
use vx_link::Program;
use vx_outcome::{Outcome, Outcomes};
use vx_space::{Space, SpaceFault};
use vx_throw::{raise, throw};

/// One outcome, to which some configuration comes.
fn some_thrown<S: Space>(
    alloc: Global,
    program: &Program,
    space: &mut S,
    heap: &mut Heap<S>,
    callers: &mut Callers<S>,
    outcome: Outcome<S>,
) -> Result<Outcomes<S>, SpaceFault>
    requires may { MayThrow program.now (S.sets space.old) heap.old callers.old (outcome ∷ []) }
    requires some { condition_of outcome ≢ (S.sets space.old).never }
    ensures extends { Extends (S.sets space.old) (S.sets space.new) }
    ensures carried { IfOk result (λ r. AreCarriedOut program.now (thrown_out program.now) (S.sets space.old) (S.sets space.new) heap.old heap.new callers.old callers.new (outcome ∷ []) r.items.items) }
    ensures placed { NoneUncarried program.now (S.sets space.old) heap.old callers.old (outcome ∷ []) → IfOk result (λ r. list_all is_placed r.items.items ≡ true) }
{
    match outcome {
        Outcome::Raise {
            group,
            class,
            message,
        } => raise(alloc, program, space, heap, callers, group, class, message),
        Outcome::Throw { group, thrown } => {
            throw(alloc, program, space, heap, callers, group, thrown)
        }
        other => {
            let same = only(alloc, other)?;
            Ok(same)
        }
    }
}

/// One outcome. One to which no configuration comes is dropped.
fn one_thrown<S: Space>(
    alloc: Global,
    program: &Program,
    space: &mut S,
    heap: &mut Heap<S>,
    callers: &mut Callers<S>,
    outcome: Outcome<S>,
) -> Result<Outcomes<S>, SpaceFault>
    requires { MayThrow program.now (S.sets space.old) heap.old callers.old (outcome ∷ []) }
    ensures extends { Extends (S.sets space.old) (S.sets space.new) }
    ensures carried { IfOk result (λ r. AreCarriedOut program.now (thrown_out program.now) (S.sets space.old) (S.sets space.new) heap.old heap.new callers.old callers.new (outcome ∷ []) r.items.items) }
    ensures placed { NoneUncarried program.now (S.sets space.old) heap.old callers.old (outcome ∷ []) → IfOk result (λ r. list_all is_placed r.items.items ≡ true) }
{
    if space.is_never(outcome.condition()) {
        return Ok(Outcomes::new(alloc));
    }
    some_thrown(alloc, program, space, heap, callers, outcome)
}

/// The outcomes of an attempt with each exception that is raised or thrown made and thrown. Each of them takes its place, as
/// native methods and beginnings are carried out before. Heap and tree may grow, and change at no configuration that comes to none
/// of them. The only refusal is want of memory, after which heap and tree are given up.
pub(crate) fn all_thrown<S: Space>(
    alloc: Global,
    program: &Program,
    space: &mut S,
    heap: &mut Heap<S>,
    callers: &mut Callers<S>,
    outcomes: Outcomes<S>,
) -> Result<Outcomes<S>, SpaceFault>
    requires { MayThrow program.now (S.sets space.old) heap.old callers.old outcomes.items.items }
    ensures extends { Extends (S.sets space.old) (S.sets space.new) }
    ensures carried { IfOk result (λ r. AreCarriedOut program.now (thrown_out program.now) (S.sets space.old) (S.sets space.new) heap.old heap.new callers.old callers.new outcomes.items.items r.items.items) }
    ensures placed { NoneUncarried program.now (S.sets space.old) heap.old callers.old outcomes.items.items → IfOk result (λ r. list_all is_placed r.items.items ≡ true) }
{
    if are_done(&outcomes) {
        return Ok(outcomes);
    }
    let mut made = Outcomes::new(alloc);
    for outcome in outcomes.items {
        let some = one_thrown(alloc, program, space, heap, callers, outcome)?;
        made.append(some)?;
    }
    Ok(made)
}
